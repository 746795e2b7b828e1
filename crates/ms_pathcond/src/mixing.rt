ghost use Rattle.std.specs.Prelude.{◌≡◌};
ghost use Rattle.ms_pathcond.specs.Mixing.{mixed};

use ms_words::Input;

/// The input that has some parameters from the first input, and the others from the second, of the same kinds. Bit i
/// is set exactly where parameter i, counted from 0, is one of the first's. It takes no memory.
pub fn put_together(params: u8, first: &Input, second: &Input) -> Input
    requires { first.now.kinds ≡ second.now.kinds }
    ensures { result ≡ mixed params first.now second.now }
{
    let words = first.words();
    let mut input = *second;
    for place in 0..input.words().len() {
        if (params >> place) % 2 == 1 {
            let fits = input.set(place, words[place]);
            prove!(fits);
        }
    }
    input
}
