//! Labels and schedules that are worked out by hand.
use kc_relabel::{schedule, spread};

#[test]
fn labels_that_all_grow_are_written_from_the_last_on(rt: HostRuntime) {
    let mut out = [(0, 0); 3];
    let written = schedule(&[1, 2, 3], &[10, 20, 30], &mut out);
    assert_eq!(rt; (written, out), (3, [(2, 30), (1, 20), (0, 10)]));
}

#[test]
fn even_labels_leave_the_same_room_everywhere(rt: HostRuntime) {
    let labels = [
        spread(32, 524_288, 0),
        spread(1, 524_288, 0),
        spread(1, 1_099_511_627_776, 0),
    ];
    assert_eq!(rt; labels, [15_887, 262_144, 549_755_813_888]);
}
