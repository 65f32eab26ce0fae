//! The numbers of the reasons why searches are not linear.
ghost use Rattle.std.specs.Prelude.{◌≡◌};
ghost use Rattle.regress_capi.specs.Reasons.{reason_number};

use regress::Nonlinear;

/// Returns the number of a reason; 0 if there is none.
pub fn reason_number(reason: Option<Nonlinear>) -> u32
    ensures { result ≡ reason_number reason }
{
    match reason {
        None => 0,
        Some(Nonlinear::BackReference) => 1,
        Some(Nonlinear::CapturingLookaround) => 2,
        Some(Nonlinear::TooManyInstructions) => 3,
    }
}
