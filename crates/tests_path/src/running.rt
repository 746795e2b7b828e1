//! That runs of the program go as they are to.

use ms_memoise::{MOST_INPUT, Status};
use std::alloc::AllocError;
use std::process::Abort;
use tests_devices::{ADDS, Devices, SOUND, run};

/// That a run over these devices ends so and writes this. `what` tells of the case.
pub fn check_run(
    rt: &(impl Abort + AllocGlobal),
    what: &str,
    limit: u32,
    devices: Devices,
    input: &[u8],
    end: Status,
    want: &str,
) -> Result<(), AllocError> {
    let (status, sink) = run(rt.alloc(), limit, devices, &ADDS, input)?;
    assert_eq!(rt; status, end, "at {what}");
    assert_eq!(rt; sink.sink.taken(), want.as_bytes(), "at {what}");
    Ok(())
}

/// That the program reads this input to its end where T.class is this file, and writes this.
pub fn check(
    rt: &(impl Abort + AllocGlobal),
    what: &str,
    file: &[u8],
    input: &[u8],
    want: &str,
) -> Result<(), AllocError> {
    let (status, sink) = run(rt.alloc(), MOST_INPUT, SOUND, file, input)?;
    assert_eq!(rt; status, Status::Done, "at {what}");
    assert_eq!(rt; sink.sink.taken(), want.as_bytes(), "at {what}");
    Ok(())
}
