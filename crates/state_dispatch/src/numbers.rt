//! Numbers of labels.

ghost use Rattle.std.specs.Prelude.{◌≡◌, ◌<◌, ◌^◌, suc, length};
ghost use Rattle.control_flow_theory.specs.structuring.Dispatches.{number_in, one_further};

use branch_tree::Label;

fn one_further(number: u32) -> u32
    requires { suc number < 2 ^ 32 }
    ensures { result ≡ one_further number }
{
    if number == 0 { 0 } else { number + 1 }
}

/// The number of the label in the list, from 1; 0 where it isn't there.
pub fn number_in(labels: &[Label], label: Label) -> u32
    requires { suc (length labels.now) < 2 ^ 32 }
    ensures { result ≡ number_in labels.now label }
{
    let mut number = 0u32;
    let mut left = labels.len();
    while left > 0 {
        left -= 1;
        number = if labels[left] == label {
            1
        } else {
            one_further(number)
        };
    }
    number
}
