// The number and the detail of each refusal.
ghost use Rattle.std.specs.Prelude.{◌≡◌};
ghost use Rattle.recipe.specs.Offence.{number_of, detail_of};

use crate::Refusal;

impl Refusal {
    // The number by which a refusal is known.
    pub fn number(&self) -> u32
        ensures { result ≡ number_of self.now }
    {
        match self {
            Refusal::Misplaced { .. } => 1,
            Refusal::Miscounted { .. } => 2,
            Refusal::BadMethod { .. } => 3,
            Refusal::BadNode { .. } => 4,
            Refusal::BadEdge { .. } => 5,
            Refusal::BadRow { .. } => 6,
            Refusal::TooMany => 7,
            Refusal::OtherCounts => 8,
            Refusal::UnfitTable => 9,
            Refusal::NotAnEdge => 10,
            Refusal::EdgeHeld => 11,
            Refusal::EdgesFull => 12,
            Refusal::InquiryFull => 13,
            Refusal::NotUnsafe => 14,
            Refusal::LongTrace { .. } => 15,
            Refusal::NotAStep { .. } => 16,
            Refusal::StackFull { .. } => 17,
            Refusal::ShortOutput { .. } => 18,
        }
    }

    // Which of them is wrong, counted from 0, at which place of a list, how many nodes a trace has, or how many bytes are needed; 0 where there is nothing to say.
    pub fn detail(&self) -> usize
        ensures { result ≡ detail_of self.now }
    {
        match *self {
            Refusal::Misplaced { entry } | Refusal::Miscounted { entry } => entry as usize,
            Refusal::BadMethod { method } => method as usize,
            Refusal::BadNode { node } => node as usize,
            Refusal::BadEdge { edge } => edge as usize,
            Refusal::BadRow { row } => row as usize,
            Refusal::TooMany
            | Refusal::OtherCounts
            | Refusal::UnfitTable
            | Refusal::NotAnEdge
            | Refusal::EdgeHeld
            | Refusal::EdgesFull
            | Refusal::InquiryFull
            | Refusal::NotUnsafe => 0,
            Refusal::LongTrace { length } => length as usize,
            Refusal::NotAStep { place } | Refusal::StackFull { place } => place,
            Refusal::ShortOutput { needed } => needed as usize,
        }
    }
}
