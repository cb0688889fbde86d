#![tactic(auto)]
// The AGN wake-up rule of a primary station (01, The tool; 001 2.4.8).
ghost use Rattle.std.specs.Prelude.{◌≡◌};
ghost use Rattle.wake.specs.Clauses.{enq_or_trf};
ghost use Rattle.wake.specs.Rule.{fresh, awake, calling, otherwise, wake_before, asked, succeeded};

// A request, named by its frame.
#[derive(Clone, Copy, Debug, PartialEq, Eq)]
pub enum Request {
    Enq,
    Trf,
    Rec,
    Trb,
    Ib,
}

// The wake-up call that goes out before a frame.
// Two names of 01, and no value beside them that an option could hold.
#[derive(Clone, Copy, Debug, PartialEq, Eq)]
pub enum Wake {
    None,
    Agn,
}

// The last request, as the rule tells requests apart: an ENQ or TRF, or another or none.
#[derive(Clone, Copy, Debug, PartialEq, Eq)]
pub enum Last {
    EnqTrf,
    Other,
}

// A count of exchanges up to five, which stands for any more.
#[derive(Clone, Copy, Debug, PartialEq, Eq)]
pub struct Exchanges(pub u8);

// So many ENQ and TRF to one station succeed after one wake-up.
const MOST_EXCHANGES: u8 = 5;

// The octets of a station's address.
const STATION_WIDTH: usize = 6;

// What the rule looks at besides the last request: the station of the last ENQ or TRF, and how many ENQ and TRF have succeeded since the last wake-up.
#[derive(Clone, Copy)]
pub struct WakeUps {
    pub station: [u8; STATION_WIDTH],
    pub successes: Exchanges,
}

impl Request {
    fn enq_or_trf(self) -> bool
        ensures { result ≡ enq_or_trf self }
    {
        matches!(self, Request::Enq | Request::Trf)
    }
}

impl WakeUps {
    // No request yet.
    pub fn new() -> WakeUps
        ensures { result ≡ fresh }
    {
        WakeUps {
            station: [0; STATION_WIDTH],
            successes: Exchanges(0),
        }
    }

    // Whether an ENQ or TRF to this station needs no wake-up.
    #[tactic(auto, unfolding(crate::specs::Rule::awake))]
    fn awake(self, last: Last, station: [u8; STATION_WIDTH]) -> bool
        ensures { result ≡ awake last self station }
    {
        match last {
            Last::EnqTrf => station == self.station && self.successes.0 < MOST_EXCHANGES,
            Last::Other => false,
        }
    }

    // After an ENQ or TRF to this station: a wake-up starts the count anew.
    fn calling(self, last: Last, station: [u8; STATION_WIDTH]) -> WakeUps
        ensures { result ≡ calling last self station }
    {
        let successes = if self.awake(last, station) {
            self.successes
        } else {
            Exchanges(0)
        };
        WakeUps { station, successes }
    }

    // After another request.
    fn otherwise(self) -> WakeUps
        ensures { result ≡ otherwise self }
    {
        WakeUps {
            successes: Exchanges(0),
            ..self
        }
    }

    // The wake-up that goes before a request to this station, where the last request was this one.
    #[tactic(auto, unfolding(crate::specs::Rule::wake_before))]
    pub fn before(self, last: Last, request: Request, station: [u8; STATION_WIDTH]) -> Wake
        ensures { result ≡ wake_before last self request station }
    {
        if request.enq_or_trf() && self.awake(last, station) {
            Wake::None
        } else {
            Wake::Agn
        }
    }

    // After a request to this station.
    #[tactic(auto, unfolding(crate::specs::Rule::asked))]
    pub fn asked(self, last: Last, request: Request, station: [u8; STATION_WIDTH]) -> WakeUps
        ensures { result ≡ asked last self request station }
    {
        if request.enq_or_trf() {
            self.calling(last, station)
        } else {
            self.otherwise()
        }
    }

    // After the last request has ended without a number.
    #[tactic(auto, unfolding(crate::specs::Rule::succeeded))]
    pub fn succeeded(self, last: Last) -> WakeUps
        ensures { result ≡ succeeded last self }
    {
        match last {
            Last::EnqTrf if self.successes.0 < MOST_EXCHANGES => WakeUps {
                successes: Exchanges(self.successes.0 + 1),
                ..self
            },
            _ => self,
        }
    }
}
