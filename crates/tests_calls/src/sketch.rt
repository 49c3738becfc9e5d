// The aging of the sketch: in lanes and by the plain loop. The rest is in rows.
use moka_common::constants::GROUPS_PER_WORD;
use moka_common::{age, age_plain};
use std::test::Fail;

/// Fills a table with numbers that are random enough: the highest bits of Knuth's linear ones.
fn fill(groups: &mut [u16]) {
    let mut number = 1u64;
    for group in groups.iter_mut() {
        number = number
            .wrapping_mul(6_364_136_223_846_793_005)
            .wrapping_add(1_442_695_040_888_963_407);
        *group = (number >> 48) as u16;
    }
}

// A table's size follows from how many counters were odd.
#[test]
fn lanes_age_a_table_of_any_length_as_the_plain_loop_does(rt: HostRuntime) -> Result<(), Fail> {
    for len in 0..=1024 {
        let mut in_lanes = vec![in rt.alloc(); 0u16; GROUPS_PER_WORD * len]?;
        let mut plain = vec![in rt.alloc(); 0u16; GROUPS_PER_WORD * len]?;
        fill(in_lanes.as_mut_slice());
        fill(plain.as_mut_slice());
        let (odd, odd_plain) = (
            age(in_lanes.as_mut_slice()),
            age_plain(plain.as_mut_slice()),
        );
        assert!(rt; odd == odd_plain && in_lanes == plain, "of {len}");
    }
    Ok(())
}
