//! The first fault of a list of needs.

ghost use Rattle.std.specs.Prelude.{◌≡◌, [], ◌∷◌};
ghost use Rattle.rmecore.specs.Needs.{first_fault as fault_of};

use rmecore::Fault;

/// The fault of the first need that is not met.
pub(crate) fn first_fault(needs: &[(bool, Fault)]) -> Option<Fault>
    ensures { result ≡ fault_of needs.now }
{
    for need in needs {
        if !need.0 {
            return Some(need.1);
        }
    }
    None
}

/// The fault, unless the one need is met.
pub(crate) fn fault_unless(met: bool, fault: Fault) -> Option<Fault>
    ensures { result ≡ fault_of ((met, fault) ∷ []) }
{
    if met { None } else { Some(fault) }
}
