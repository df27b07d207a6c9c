//! Why a call is refused: each refusal has a number, and some have places.

#![tactic(auto)]

ghost use Rattle.refusal.specs.Refusals.{number, places};
ghost use Rattle.std.specs.Prelude.{◌≡◌};

/// A line of a text: files and lines count from 1; 0 stands where there is none.
// Numbers, and no `Option`: the rules print both with every refusal, and 0 where there is none.
#[derive(Clone, Copy, PartialEq, Eq, Debug, Default)]
pub struct Line {
    pub file: u32,
    pub line: usize,
}

/// A refusal, by what is wrong.
#[derive(Clone, Copy, PartialEq, Eq, Debug)]
pub enum Refusal {
    /// A figure of the heading, or the minutes between two graph files, out of range.
    Figures,
    /// A table that breaks its rule: its lowest such road, or none where its size is out of range.
    Table(Option<u32>),
    /// A text that is broken at a line.
    Text(Line),
    /// More than was lent or is allowed.
    Quota(Line),
    /// A sheet, marks, a route, slots or a buffer too short.
    Short,
    /// Parts that do not belong together, or a sheet that is not well formed.
    Disagree,
    /// No origin.
    NoOrigin,
    /// A node, a road, a departure or a list's bound out of range.
    Range,
    /// Shut when shut, or open when open.
    Already,
    /// Printed before it is settled; the road whose label is full, where one is.
    Unsettled(Option<u32>),
}

/// Where a refusal's fault lies: 0, or no road, where that does not apply. Roads count from 0.
// The file and the line are printed as they stand here; a road's number may be 0, so that it needs an `Option`.
#[derive(Clone, Copy, PartialEq, Eq, Debug, Default)]
pub struct Places {
    pub file: u32,
    pub line: usize,
    pub road: Option<u32>,
}

impl Refusal {
    /// The refusal's number: the rules print it, so each is written out.
    pub fn number(self) -> u32
        ensures number_as_listed { result ≡ number self }
    {
        match self {
            Refusal::Figures => 1,
            Refusal::Table(_) => 2,
            Refusal::Text(_) => 3,
            Refusal::Quota(_) => 4,
            Refusal::Short => 5,
            Refusal::Disagree => 6,
            Refusal::NoOrigin => 7,
            Refusal::Range => 8,
            Refusal::Already => 9,
            Refusal::Unsettled(_) => 10,
        }
    }

    /// Where the fault lies.
    pub fn places(self) -> Places
        ensures places_as_listed { result ≡ places self }
    {
        match self {
            Refusal::Text(at) | Refusal::Quota(at) => Places {
                file: at.file,
                line: at.line,
                road: None,
            },
            Refusal::Table(road) | Refusal::Unsettled(road) => Places {
                road,
                ..Places::default()
            },
            _ => Places::default(),
        }
    }
}
