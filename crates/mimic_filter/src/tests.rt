//! Worked rows of the filter.
use crate::mimic8;

#[test]
fn filtered_values(rt: HostRuntime) {
    assert_eq!(rt; mimic8(2048, 1024, &[3; 8], &[1; 8]), [5; 8]);
    assert_eq!(rt; mimic8(1, 0, &[-1; 8], &[0; 8]), [-1; 8]);
    assert_eq!(rt;
        mimic8(65536, 0, &[268_435_455; 8], &[0; 8]),
        [268_435_455; 8]
    );
}
