//! Laws of settings, from the definitions alone.

ghost use Rattle.std.specs.Prelude.{◌≡◌, ℕ, List, [], Ok};
ghost use Rattle.std.specs.List.{concat};
ghost use Rattle.site_laws.specs.Orders.{IsOfBytes};
ghost use Rattle.site_model.specs.Next.{next_setting};
ghost use Rattle.site_model.specs.Order.{Order};
ghost use Rattle.site_model.specs.Standing.{SiteSetting};
ghost use Rattle.site_report.specs.SettingsText.{settings_lines};
ghost use Rattle.site_service.specs.Answering.{order_after};
ghost use Rattle.site_service.specs.Settings.{settings_say};
ghost use Rattle.site_service.specs.Taken.{HasRoom};

use bpf_semantics::states_fit;
use catalogue::accepted_procedures_are_safe;
use log_model::{a_log_only_grows, each_call_has_a_verdict, logs_whose_calls_fit};
use order_chains::next_settings_go_on;
use program_checks::programs_pass_where_they_are_accepted;
use site_laws::{orders_of_bytes_fit, procedures_after_each_byte_string};
use site_model::{orders_grow, sessions_go_on};

/// Settings are read back from the lines that are printed of them: those that settings lines can say, and those of a
/// database that goes on from such settings. The order is one of bytes, with a position for each of its byte strings.
/// Every order to which lines of a site's input lead is such an order.
pub fn settings_are_read_back()
    ensures own { (said : List ℕ) (s : SiteSetting) → settings_say said ≡ Ok s
        → settings_say (concat (settings_lines s)) ≡ Ok s }
    ensures next { (said : List ℕ) (s : SiteSetting) (order : Order) → settings_say said ≡ Ok s
        → IsOfBytes order → HasRoom s order
        → settings_say (concat (settings_lines (next_setting s order))) ≡ Ok (next_setting s order) }
    ensures dumped { (said : List ℕ) (s : SiteSetting) (lines : List (List ℕ)) → settings_say said ≡ Ok s
        → settings_say (concat (settings_lines (next_setting s (order_after s [] lines))))
        ≡ Ok (next_setting s (order_after s [] lines)) }
{
    // Laws:
    a_log_only_grows();
    accepted_procedures_are_safe();
    each_call_has_a_verdict();
    logs_whose_calls_fit();
    next_settings_go_on();
    orders_grow();
    orders_of_bytes_fit();
    procedures_after_each_byte_string();
    programs_pass_where_they_are_accepted();
    sessions_go_on();
    states_fit();
}
