use desk_ops::{Key, Stamp};
use desk_registers::Registers;

/// Measure 144 by 5.2 and then 120 by 5.1: the greater stamp stays, whichever comes last.
#[test]
fn settings_by_stamp(rt: HostRuntime) {
    let late = Stamp {
        counter: 5,
        site: 2,
    };
    let early = Stamp {
        counter: 5,
        site: 1,
    };
    let mut registers = Registers::new();
    assert_eq!(rt; registers.value(Key::Measure), None);
    registers.take(late, Key::Measure, 144);
    registers.take(early, Key::Measure, 120);
    assert_eq!(rt; registers.value(Key::Measure), Some(144));
    let mut other = Registers::new();
    other.take(early, Key::Measure, 120);
    other.take(late, Key::Measure, 144);
    assert_eq!(rt; other.value(Key::Measure), Some(144));
    for key in [Key::Tight, Key::Loose, Key::Case, Key::Wedge] {
        assert_eq!(rt; other.value(key), None);
    }
}
