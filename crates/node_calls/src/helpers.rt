//! Instructions that read or write rows.

ghost use Rattle.std.specs.Prelude.{◌≡◌};
ghost use Rattle.log_model.specs.OpenCall.{calls_row_helper, is_row_helper};

use bpf_code::Instruction;
use schema::Helper;

/// Tells whether an instruction calls a helper that reads or writes rows: any helper but the one that cancels.
pub fn calls_row_helper(instruction: Option<Instruction>) -> bool
    ensures { result ≡ calls_row_helper instruction }
{
    match instruction {
        Some(Instruction::Call { helper }) => is_row_helper(Helper::from_number(helper)),
        _ => false,
    }
}

fn is_row_helper(helper: Option<Helper>) -> bool
    ensures { result ≡ is_row_helper helper }
{
    match helper {
        None | Some(Helper::Cancel) => false,
        Some(_) => true,
    }
}
