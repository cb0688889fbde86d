// What a call leaves in lent memory and cells.
ghost use Rattle.std.specs.Prelude.{◌≡◌};
ghost use Rattle.tool.specs.Answers.{answer_of};
ghost use Rattle.tool_exports.specs.Outcomes.{stored, wake_mark, done_mark};

use numbers::table::{BROKEN_RULE, WRONG_LENGTH};
use tool::{Progress, Refusal, Tool};
use tool_memory::layout::SIZE;
use wake::Wake;

// The tool that a call gives back, over the memory; 12 and 17 leave the memory as it is.
#[tactic(auto, unfolding(crate::specs::Outcomes::stored))]
pub(crate) fn store(memory: &mut [u8; SIZE], tool: Tool, number: u8)
    ensures { memory.new ≡ stored number tool memory.old }
{
    if number != BROKEN_RULE && number != WRONG_LENGTH {
        tool_memory::encode(memory, tool);
    }
}

pub(crate) fn wake_mark(wake: Wake) -> u8
    ensures { result ≡ wake_mark wake }
{
    match wake {
        Wake::None => 0,
        Wake::Agn => 1,
    }
}

pub(crate) fn done_mark(answer: Result<Progress, Refusal>) -> u8
    ensures { result ≡ done_mark (answer_of answer) }
{
    u8::from(matches!(answer, Ok(Progress::Done)))
}
