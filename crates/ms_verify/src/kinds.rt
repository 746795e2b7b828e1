ghost use Rattle.std.specs.Prelude.{◌≡◌, length, not};
ghost use Rattle.ms_typing.specs.Kinds as rules;

use ms_typing::PlaceKind;
use ms_words::Thrown;

/// The lowest common ancestor of two classes.
#[tactic(auto, using(crate::proofs::Common::lineage_goes_up))]
fn common(class: Thrown, other: Thrown) -> Thrown
    ensures { result ≡ rules.common class other }
{
    if other.is_a(class) {
        return class;
    }
    match class.parent() {
        Some(above) => common(above, other),
        None => Thrown::Throwable,
    }
}

/// Whether a place of this kind holds an initialised reference, or null.
pub(crate) fn is_reference(kind: PlaceKind) -> bool
    ensures { result ≡ rules.is_reference kind }
{
    match kind {
        PlaceKind::Null
        | PlaceKind::Array
        | PlaceKind::Text
        | PlaceKind::Thrown(_)
        | PlaceKind::Ref => { true }
        PlaceKind::Int | PlaceKind::New { .. } | PlaceKind::Unset => false,
    }
}

/// Whether two kinds are equal.
fn same_kind(kind: PlaceKind, other: PlaceKind) -> bool
    ensures { result ≡ rules.same_kind kind other }
{
    match (kind, other) {
        (PlaceKind::Int, PlaceKind::Int) => true,
        (PlaceKind::Null, PlaceKind::Null) => true,
        (PlaceKind::Array, PlaceKind::Array) => true,
        (PlaceKind::Text, PlaceKind::Text) => true,
        (PlaceKind::Thrown(a), PlaceKind::Thrown(b)) => a == b,
        (PlaceKind::Ref, PlaceKind::Ref) => true,
        (
            PlaceKind::New {
                offset: o,
                class: a,
            },
            PlaceKind::New {
                offset: p,
                class: b,
            },
        ) => { o == p && a == b }
        (PlaceKind::Unset, PlaceKind::Unset) => true,
        _ => false,
    }
}

/// Two kinds of references joined, which differ.
fn joined_references(kind: PlaceKind, other: PlaceKind) -> PlaceKind
    ensures { result ≡ rules.joined_references kind other }
{
    match (kind, other) {
        (PlaceKind::Null, _) => other,
        (_, PlaceKind::Null) => kind,
        (PlaceKind::Thrown(class), PlaceKind::Thrown(other)) => {
            PlaceKind::Thrown(common(class, other))
        }
        _ => PlaceKind::Ref,
    }
}

/// Two kinds joined: what holds all that both hold.
fn joined_kind(kind: PlaceKind, other: PlaceKind) -> PlaceKind
    ensures { result ≡ rules.joined_kind kind other }
{
    if same_kind(kind, other) {
        return kind;
    }
    if is_reference(kind) && is_reference(other) {
        return joined_references(kind, other);
    }
    PlaceKind::Unset
}

/// Joins a kind to the one of a place, and answers whether that changed it. Mostly the two are equal.
#[tactic(auto, using(crate::proofs::Joining::same_joined, crate::proofs::Joining::same_stays))]
fn join_place(kind: &mut PlaceKind, other: PlaceKind) -> bool
    ensures joined { kind.new ≡ rules.joined_kind kind.old other }
    ensures changed { result ≡ not (rules.same_kind (rules.joined_kind kind.old other) kind.old) }
{
    if same_kind(*kind, other) {
        return false;
    }
    let joined = joined_kind(*kind, other);
    let changed = !same_kind(joined, *kind);
    *kind = joined;
    changed
}

/// Joins other kinds to these, place by place, and answers whether that changed one.
pub(crate) fn join_into(kinds: &mut [PlaceKind], others: &[PlaceKind]) -> bool
    requires { length kinds.old ≡ length others.now }
    ensures joined { kinds.new ≡ rules.joined_kinds kinds.old others.now }
    ensures changed { result ≡ not (rules.same_kinds (rules.joined_kinds kinds.old others.now) kinds.old) }
{
    let mut changed = false;
    for i in 0..kinds.len() {
        if join_place(&mut kinds[i], others[i]) {
            changed = true;
        }
    }
    changed
}
