// How a type holds other types, by the kind of its line: what the mappings ask of a kind.
#![tactic(auto)]

ghost use Rattle.std.specs.Prelude.{◌≡◌};
ghost use Rattle.nesting.specs.Nestings.{kind_nesting};

use datatypes::kind;

// `List` is any of the three lists, `Fields` a struct or a union.
#[derive(Drop)]
pub enum Nesting {
    Nothing,
    List,
    Map,
    Fields,
    Dictionary,
    Extension,
}

pub fn nesting_of(kind: u64) -> Nesting
    ensures { result ≡ kind_nesting kind }
{
    match kind {
        kind::LIST => Nesting::List,
        kind::FIXED_SIZE_LIST => Nesting::List,
        kind::LARGE_LIST => Nesting::List,
        kind::STRUCT => Nesting::Fields,
        kind::MAP => Nesting::Map,
        kind::DICTIONARY => Nesting::Dictionary,
        kind::EXTENSION => Nesting::Extension,
        kind::UNION => Nesting::Fields,
        _ => Nesting::Nothing,
    }
}
