//! Rows of so many log types that the slots of the last ones are not listed, or that less is asked
//! of these. The verdicts are those where the slots are listed, and where they are not.
use crate::play::play;

/// The slots of the last log types are not listed. 0x3E831 is the word of 10.00.
static WIDE_SCRIPT: &str = r#"
books 1 3600
many 3600 320
word "task_1"
word "beta_2"
word "zeta_7"
wide "zeta_7"      3599 4,2,0x3E831     320 tried    tried
wide "zeta_7"      3599 4,0,0x3E831     320 rejected rejected
# a number that is told as a word too
wide "zeta_7"      3599 2,0,0x3E831     320 rejected tried
wide "4711"        3599 4711,0,0x3E831  320 tried    tried
wide "4711"        3599 94711,0,0x3E831 320 tried    tried
wide "4711"        3599 4712,0,0x3E831  320 rejected rejected
wide " 4711 "      3599 4711,0,0x3E831  320 tried    tried
wide " 4711 "      3599 94711,0,0x3E831 320 rejected rejected
wide "10.0"        3599 4,0,0x3E831     320 tried    tried
wide "10.3"        3599 4,0,0x3E831     320 rejected rejected
wide "many"        3599 4,0,0x3E831     320 certain  certain
wide "none"        3599 4,0,0x3E831     320 rejected rejected
wide "zeta_7*4711" 3599 4711,2,0x3E831  320 tried    tried
wide "zeta_7*4711" 3599 4711,1,0x3E831  320 rejected rejected
bare "zeta_7" 0    0,1 no
bare "zeta_7" 0    0,2 yes
bare "zeta_7" 3599 0,1 no
bare "zeta_7" 3599 0,2 yes
"#;

#[test]
fn many_log_types(rt: HostRuntime) -> Result<(), usize> {
    play(rt.alloc(), WIDE_SCRIPT)
}

/// The last log types are behind those of which all is asked. By long numbers few rows are left, so
/// that their slots are not asked.
static LONG_SCRIPT: &str = r#"
books 1 4100
many 4100 1
word "task_1"
word "beta_2"
word "zeta_7"
wide "27891811"        4099 27891811,0,0x3E831  1 tried    tried
wide "27891811"        4099 927891811,0,0x3E831 1 tried    tried
wide "27891811"        4099 7891811,0,0x3E831   1 rejected rejected
wide "10000000"        4099 10000000,0,0x3E831  1 tried    tried
wide "many*27891811"   4099 27891811,0,0x3E831  1 tried    tried
wide "none*27891811"   4099 27891811,0,0x3E831  1 rejected rejected
wide "27891811*zeta_7" 4099 27891811,2,0x3E831  1 tried    tried
wide "27891811*zeta_7" 4099 27891811,1,0x3E831  1 rejected rejected
wide "many"            4099 4,0,0x3E831         1 certain  certain
"#;

#[test]
fn many_log_types_by_long_numbers(rt: HostRuntime) -> Result<(), usize> {
    play(rt.alloc(), LONG_SCRIPT)
}
