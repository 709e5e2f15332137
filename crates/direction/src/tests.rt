//! Rows worked by hand, on a line that is a reactance: its voltage leads its current by a right angle.
use super::*;

const LINE: Cx = Cx { re: 0, im: 100 };

const LAGGING: Cx = Cx { re: 0, im: -1 };

const AHEAD: Cx = Cx { re: 1, im: 0 };

const BEHIND: Cx = Cx { re: -1, im: 0 };

const ACROSS: Cx = Cx { re: 0, im: 1 };

#[test]
fn each_torque_has_its_sign(rt: HostRuntime) {
    assert_eq!(rt;
        loop_direction(LINE, LAGGING, Some(AHEAD), None),
        Sense::Forward
    );
    assert_eq!(rt;
        loop_direction(LINE, LAGGING, Some(BEHIND), None),
        Sense::Reverse
    );
    assert_eq!(rt;
        loop_direction(LINE, LAGGING, Some(ACROSS), None),
        Sense::Neither
    );
    assert_eq!(rt; loop_direction(LINE, LAGGING, None, None), Sense::Neither);
    let forward = Some((BEHIND, LAGGING));
    assert_eq!(rt;
        loop_direction(LINE, LAGGING, None, forward),
        Sense::Forward
    );
    let reverse = Some((AHEAD, LAGGING));
    assert_eq!(rt;
        loop_direction(LINE, LAGGING, Some(AHEAD), reverse),
        Sense::Reverse
    );
    let neither = Some((ACROSS, LAGGING));
    assert_eq!(rt;
        loop_direction(LINE, LAGGING, Some(AHEAD), neither),
        Sense::Neither
    );
    let line = Cx {
        re: 1_048_575,
        im: 1_048_575,
    };
    let current = Cx {
        re: 35_184_372_088_831,
        im: 35_184_372_088_831,
    };
    let pol = Cx {
        re: 17_179_869_183,
        im: 17_179_869_183,
    };
    assert_eq!(rt;
        loop_direction(line, current, Some(pol), None),
        Sense::Forward
    );
    let part = 4_294_967_295;
    let minus = (Cx { re: part, im: part }, Cx { re: part, im: part });
    assert_eq!(rt;
        loop_direction(line, current, Some(pol), Some(minus)),
        Sense::Reverse
    );
}
