// The number and the detail of each refusal.
use recipe::Refusal;

static REFUSALS: [(Refusal, (u32, usize)); 20] = [
    (Refusal::Misplaced { entry: 4 }, (1, 4)),
    (Refusal::Miscounted { entry: 3 }, (2, 3)),
    (Refusal::BadMethod { method: 255 }, (3, 255)),
    (Refusal::BadNode { node: 1023 }, (4, 1023)),
    (Refusal::BadEdge { edge: 4095 }, (5, 4095)),
    (Refusal::BadRow { row: 15 }, (6, 15)),
    (Refusal::TooMany, (7, 0)),
    (Refusal::OtherCounts, (8, 0)),
    (Refusal::UnfitTable, (9, 0)),
    (Refusal::NotAnEdge, (10, 0)),
    (Refusal::EdgeHeld, (11, 0)),
    (Refusal::EdgesFull, (12, 0)),
    (Refusal::InquiryFull, (13, 0)),
    (Refusal::NotUnsafe, (14, 0)),
    (Refusal::LongTrace { length: 5 }, (15, 5)),
    (Refusal::LongTrace { length: u32::MAX }, (15, 4294967295)),
    (Refusal::NotAStep { place: 4 }, (16, 4)),
    (Refusal::StackFull { place: 1 }, (17, 1)),
    (Refusal::ShortOutput { needed: 26128 }, (18, 26128)),
    (Refusal::ShortOutput { needed: u32::MAX }, (18, 4294967295)),
];

#[test]
fn each_refusal_has_its_number_and_detail(rt: HostRuntime) {
    for (refusal, expected) in &REFUSALS {
        assert_eq!(rt; (refusal.number(), refusal.detail()), *expected);
    }
}
