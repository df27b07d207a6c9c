//! Labels between small curves.

ghost use Rattle.corridor.specs.Curves.{Curves};
ghost use Rattle.std.specs.Prelude.{◌≡◌, MatchBool, ◌&&◌, nat_le};
ghost use Rattle.std.specs.List.{list_all, zip};

use super::*;
use curve::Point;

/// Whether each height of `lo` is at most that of `up`, which is at most 1,000.
fn are_ordered(lo: &[u32], up: &[u32]) -> bool
    ensures in_order { result ≡ list_all (λ p. nat_le p.0 p.1 && nat_le p.1 1000) (zip lo.now up.now) }
{
    lo.iter()
        .zip(up)
        .all(|(low, high)| low <= high && *high <= 1000)
}

/// Whether these are curves between which a label is made.
fn are_curves(lo: &[u32], up: &[u32]) -> bool
    ensures curves_if_so { MatchBool result (Curves lo.now up.now) (Unit {0}) }
{
    if lo.is_empty() || lo.len() != up.len() || lo.len() > 1441 {
        return false;
    }
    up.is_sorted() && are_ordered(lo, up)
}

fn made(lo: &[u32], up: &[u32], out: &mut [Point]) -> Option<usize> {
    if !are_curves(lo, up) {
        return None;
    }
    Bounds::new(lo, up).label(out).ok()
}

#[test]
fn straight(rt: HostRuntime) {
    let mut out = [Point::default(); 4];
    assert_eq!(rt;
        made(&[10, 20, 30, 40], &[12, 25, 33, 44], &mut out),
        Some(2)
    );
    assert_eq!(rt; out[0].arrival, 10);
    assert_eq!(rt; out[1].departure, 3);
    assert_eq!(rt; out[1].arrival, 40);
}

#[test]
fn stairs(rt: HostRuntime) {
    let lo = [0, 0, 0, 9, 9, 9, 20];
    let up = [1, 1, 1, 9, 9, 9, 20];
    let mut out = [Point::default(); 5];
    assert_eq!(rt; made(&lo, &up, &mut out), Some(5));
    assert_eq!(rt; out[1].departure, 2);
    assert_eq!(rt; out[2].arrival, 9);
    let mut few = [Point::default(); 4];
    assert_eq!(rt; made(&lo, &up, &mut few), None);
}
