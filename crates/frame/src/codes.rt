// The command codes of 004 Annex D, Table D.1.
ghost use Rattle.std.specs.Prelude.{◌≡◌};
ghost use Rattle.frame.specs.Codes.{code_of, answer_of_lookup, command_of};

#[derive(Clone, Copy, Debug, PartialEq, Eq)]
pub enum Command {
    Enq,
    Dat,
    Rec,
    Ech,
    Aut,
    Eos,
    Aso,
    Rso,
    Ib,
    Drj,
    Arj,
    Trf,
    Trb,
    Tra,
    Pre,
    Sel,
}

// The check for 4: a code that names no command.
#[derive(Clone, Copy, Debug, PartialEq, Eq)]
pub struct UnknownCommand;

impl From<Command> for u8 {
    ghost from_gives = { λ command code. code ≡ code_of command };

    #[tactic(auto, unfolding(crate::specs::Codes::code_of))]
    fn from(command: Command) -> u8 {
        match command {
            Command::Enq => 0x01,
            Command::Dat => 0x02,
            Command::Rec => 0x03,
            Command::Ech => 0x04,
            Command::Aut => 0x05,
            Command::Eos => 0x06,
            Command::Aso => 0x07,
            Command::Rso => 0x08,
            Command::Ib => 0x09,
            Command::Drj => 0x0A,
            Command::Arj => 0x0B,
            Command::Trf => 0x0C,
            Command::Trb => 0x0D,
            Command::Tra => 0x0E,
            Command::Pre => 0x10,
            Command::Sel => 0x11,
        }
    }
}

impl TryFrom<u8> for Command {
    type Error = UnknownCommand;

    ghost try_from_gives = { λ code found. answer_of_lookup found ≡ command_of code };

    #[tactic(auto, unfolding(crate::specs::Codes::code_of, crate::specs::Codes::among, crate::specs::Codes::command_of))]
    fn try_from(code: u8) -> Result<Self, UnknownCommand> {
        match code {
            0x01 => Ok(Command::Enq),
            0x02 => Ok(Command::Dat),
            0x03 => Ok(Command::Rec),
            0x04 => Ok(Command::Ech),
            0x05 => Ok(Command::Aut),
            0x06 => Ok(Command::Eos),
            0x07 => Ok(Command::Aso),
            0x08 => Ok(Command::Rso),
            0x09 => Ok(Command::Ib),
            0x0A => Ok(Command::Drj),
            0x0B => Ok(Command::Arj),
            0x0C => Ok(Command::Trf),
            0x0D => Ok(Command::Trb),
            0x0E => Ok(Command::Tra),
            0x10 => Ok(Command::Pre),
            0x11 => Ok(Command::Sel),
            _ => Err(UnknownCommand),
        }
    }
}
