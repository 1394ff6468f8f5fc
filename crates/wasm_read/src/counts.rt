// The counts at the end of all sections (Binary Format, Modules).
ghost use Rattle.std.specs.Prelude.{◌≡◌, MatchResult, IfSome, Ok, Err};
ghost use Rattle.wasm_binary.specs.Modules.{module_of as module_by};
ghost use Rattle.wasm_binary.specs.Reading.{counted, segments_counted};
ghost use Rattle.wasm_read.specs.Refusals.{fault_of};

use crate::bad::ReadBad;
use crate::sections::Sections;

// Where data segments were announced, there are so many.
fn check_segments(sections: &Sections, at: usize) -> Result<(), ReadBad>
    ensures { MatchResult result
        (λ _. segments_counted sections.now at sections.now.data_count ≡ Ok (module_by sections.now))
        (λ bad. IfSome (fault_of bad) (λ fault. segments_counted sections.now at sections.now.data_count ≡ Err fault)) }
{
    let segments = sections.segments.len();
    match sections.data_count {
        Some(announced) if announced as usize != segments => Err(ReadBad::Count {
            left: announced as u64,
            right: segments as u64,
            at: at as u64,
        }),
        _ => Ok(()),
    }
}

/// Where no section is left: each function has its code, and there are as many data segments as were announced, if so. Else
/// the later section is missing, and the place is the end of the bytes.
pub(crate) fn check_counts(sections: &Sections, at: usize) -> Result<(), ReadBad>
    ensures { MatchResult result
        (λ _. counted sections.now at ≡ Ok (module_by sections.now))
        (λ bad. IfSome (fault_of bad) (λ fault. counted sections.now at ≡ Err fault)) }
{
    let funcs = sections.type_indices.len();
    let codes = sections.codes.len();
    if funcs != codes {
        return Err(ReadBad::Count {
            left: funcs as u64,
            right: codes as u64,
            at: at as u64,
        });
    }
    check_segments(sections, at)
}
