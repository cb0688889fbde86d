// The tool at its end of the wire: what it asks, and what it hears.
use crate::filled::Filled;
use crate::wire::{Sent, TOOL};
use printing::print_tool;
use std::io;
use tool::{Contents, Progress, Refusal, Requested, Tool, answer_number};
use wake::Wake;

// How far a request has come: a reply is awaited, a frame is to be sent, or the request has ended.
// Four states, of which two hold what came.
#[derive(Clone, Copy)]
pub(crate) enum Stage {
    Waiting,
    Speaking(Sent),
    Done(Contents),
    Refused,
}

// A tool with its ADP, and how far its request has come.
#[derive(Clone, Copy)]
pub(crate) struct Primary {
    pub(crate) tool: Tool,
    pub(crate) adp: u8,
    pub(crate) stage: Stage,
}

impl Primary {
    // A tool that has heard nothing yet since it spoke.
    pub(crate) fn listening(tool: Tool, adp: u8) -> Primary {
        Primary {
            tool,
            adp,
            stage: Stage::Waiting,
        }
    }

    // The same tool, with nothing heard.
    pub(crate) fn waiting(self) -> Primary {
        Primary::listening(self.tool, self.adp)
    }

    // The tool after a request, which is what it gives for its ADP and a buffer: its wake-up, and its frame to be sent.
    pub(crate) fn asks<F: FnOnce(Tool, u8, &mut [u8]) -> Requested>(
        self,
        rt: &impl Print,
        request: F,
    ) -> io::Result<Primary>
        requires { F.IsAlwaysCallable request }
    {
        let mut array = [0u8; 128];
        let requested = request(self.tool, self.adp, &mut array);
        if let Wake::Agn = requested.wake {
            println!(rt; "wake  AGN")?;
        }
        print_tool(rt, answer_number(requested.answer))?;
        let frame = Filled {
            array,
            length: requested.frame.0,
        };
        Ok(Primary {
            tool: requested.tool,
            stage: Sent::from(TOOL, frame).map_or(Stage::Waiting, Stage::Speaking),
            ..self
        })
    }

    pub(crate) fn hears(self, rt: &impl Print, sent: &Sent) -> io::Result<Primary> {
        let mut now = self.waiting();
        for &octet in sent.frame.octets() {
            now = now.hears_octet(rt, octet)?;
        }
        Ok(now)
    }

    // A bad frame is dropped, and the wait goes on.
    fn hears_octet(self, rt: &impl Print, octet: u8) -> io::Result<Primary> {
        let mut array = [0u8; 128];
        let heard = self.tool.octet(octet, &mut array);
        print_tool(rt, answer_number(heard.answer))?;
        let frame = Filled {
            array,
            length: heard.frame.0,
        };
        let stage = match heard.answer {
            Ok(Progress::Nothing) | Err(Refusal::BadFrame(_)) => self.stage,
            Ok(Progress::Sent) => Stage::Speaking(Sent { frame, place: TOOL }),
            Ok(Progress::Done) => Stage::Done(heard.contents),
            Err(_) => Stage::Refused,
        };
        Ok(Primary {
            tool: heard.tool,
            stage,
            ..self
        })
    }

    // Nothing more comes: the tool's host reports a session end.
    pub(crate) fn leaves(self, rt: &impl Print) -> io::Result<Primary> {
        let told = self.tool.session_end();
        print_tool(rt, answer_number(told.answer))?;
        Ok(Primary::listening(told.tool, self.adp))
    }
}
