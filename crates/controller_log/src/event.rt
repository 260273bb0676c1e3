// The events that the engine knows by their codes in the log.
ghost use Rattle.std.specs.Prelude.{◌≡◌, Some};
ghost use Rattle.controller_log.specs.Events.{code_of, Decodes, event_name};

use std::fmt;

#[derive(Clone, Copy, PartialEq, Eq, Debug)]
pub enum Event {
    GreenBegins = 1,
    GapOut = 4,
    MaxOut = 5,
    ForceOff = 6,
    YellowBegins = 8,
    YellowEnds = 9,
    RedClearanceEnds = 11,
    DetectorOff = 81,
    DetectorOn = 82,
}

// A code by which the engine knows no event. A type of its own, as UnknownUses: an error says which byte it was.
#[derive(Clone, Copy, PartialEq, Eq, Debug)]
pub struct UnknownCode(pub u8);

impl TryFrom<u8> for Event {
    type Error = UnknownCode;

    ghost try_from_gives = { Decodes };

    // The numbers stand here again, since no pattern takes a discriminant; the contract keeps them equal.
    fn try_from(code: u8) -> Result<Event, UnknownCode> {
        match code {
            1 => Ok(Event::GreenBegins),
            4 => Ok(Event::GapOut),
            5 => Ok(Event::MaxOut),
            6 => Ok(Event::ForceOff),
            8 => Ok(Event::YellowBegins),
            9 => Ok(Event::YellowEnds),
            11 => Ok(Event::RedClearanceEnds),
            81 => Ok(Event::DetectorOff),
            82 => Ok(Event::DetectorOn),
            _ => Err(UnknownCode(code)),
        }
    }
}

impl From<Event> for u8 {
    ghost from_gives = { λ e code. code ≡ code_of e };

    fn from(event: Event) -> u8 {
        event as u8
    }
}

impl fmt::Display for Event {
    ghost output = { λ e. Some (event_name e) };

    fn fmt<W: fmt::Write>(&self, f: &mut fmt::Formatter<W>) -> fmt::Result {
        f.write_str(match self {
            Event::GreenBegins => "green begins",
            Event::GapOut => "gap-out",
            Event::MaxOut => "max-out",
            Event::ForceOff => "force-off",
            Event::YellowBegins => "yellow begins",
            Event::YellowEnds => "yellow ends",
            Event::RedClearanceEnds => "red clearance ends",
            Event::DetectorOff => "detector off",
            Event::DetectorOn => "detector on",
        })
    }
}
