// A whole script answered through the layer that lends the table: what tests in Rust link.
#![tactic(auto)]

ghost use Rattle.conversation.specs.Script.{Responds};

use script::Lent;

#[unsafe(no_mangle)]
pub extern "C" fn session_lent(script: &[u8], output: &mut [u8]) -> usize
    ensures { Responds script.now output.old result output.new }
{
    script::respond::<Lent>(script, output)
}
