// How codes are read on each scale, at the ends of their range and around 0.
use crate::{Pair, Scale, Score, ThreeWay, YesNo};
use std::process::Abort;

fn reads(rt: &impl Abort, code: i8, yes_no: YesNo, three_way: ThreeWay, score: i8) {
    assert_eq!(rt; YesNo::reading(code), yes_no);
    assert_eq!(rt; ThreeWay::reading(code), three_way);
    assert_eq!(rt; Score::reading(code).value(), score);
}

#[test]
fn readings(rt: HostRuntime) {
    reads(&rt, -128, YesNo::No, ThreeWay::No, -100);
    reads(&rt, -1, YesNo::No, ThreeWay::No, -1);
    reads(&rt, 0, YesNo::No, ThreeWay::Unknown, 0);
    reads(&rt, 1, YesNo::Yes, ThreeWay::Yes, 1);
    reads(&rt, 127, YesNo::Yes, ThreeWay::Yes, 100);
}

#[test]
fn pairs_part_by_part(rt: HostRuntime) {
    let zero: Pair<YesNo, ThreeWay> = Pair::reading(0);
    assert_eq!(rt; zero.first, YesNo::No);
    assert_eq!(rt; zero.second, ThreeWay::Unknown);
    let other = zero.complement();
    assert_eq!(rt; other.first, YesNo::Yes);
    assert_eq!(rt; other.second, ThreeWay::Unknown);
}
