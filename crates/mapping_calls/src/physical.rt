// `to_physical_type` of a field sheet.
ghost use Rattle.std.specs.Prelude.{◌≡◌};
ghost use Rattle.sheets.specs.Outcome.{to_physical_type_outcome};
ghost use Rattle.mapping_calls.specs.Answers.{places_of, physical_places};

use datatypes::physical_type::PhysicalType;
use refusal::Refusal;
use walks::Subtree;

// What the host gets: 0 and the places of the physical type and of the type that it carries, or a refusal's number, and 0 twice.
#[derive(Drop)]
pub struct PhysicalPlaces {
    pub number: u8,
    pub place: u64,
    pub inner: u64,
}

impl PhysicalPlaces {
    pub fn of(answer: Result<PhysicalType, Refusal>) -> PhysicalPlaces
        ensures { places_of result ≡ physical_places answer }
    {
        match answer {
            Ok(t) => {
                let p = t.places();
                PhysicalPlaces {
                    number: 0,
                    place: p.place,
                    inner: p.inner,
                }
            }
            Err(r) => PhysicalPlaces {
                number: r.number(),
                place: 0,
                inner: 0,
            },
        }
    }
}

// The line inside all extensions tells it.
pub fn to_physical_type(s: &[u8]) -> Result<PhysicalType, Refusal>
    ensures { physical_places result ≡ to_physical_type_outcome s.now }
{
    let at = field_sheet::read_sheet(s)?;
    let tree = Subtree {
        at,
        levels: field_sheet::LEVELS,
        inside: false,
    };
    let first = read_field_line::field_line_at(s, at);
    let inner = storage_line::storage_line(s, tree, first);
    let l = inner.line;
    match datatypes::to_physical_type::to_physical_type(l.kind, l.p) {
        Some(t) => Ok(t),
        None => Err(Refusal::UndefinedMapping),
    }
}
