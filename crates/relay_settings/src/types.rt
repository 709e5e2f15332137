//! The types, from the whole down to its parts.
use arrayvec::ArrayVec;
use relay_num::Cx;

/// The most lines of a settings file.
pub const MOST_LINES: usize = 16;

/// The most zones of a line.
pub const MOST_ZONES: usize = 5;

/// All settings.
#[derive(Drop)]
pub struct Settings {
    /// What all lines share.
    pub common: Common,
    /// 1 to 16 lines, whose names, svIDs and control block references differ.
    pub lines: Vec<LineSettings>,
}

/// What all lines share.
#[derive(Clone, Copy, PartialEq, Eq, Debug)]
pub struct Common {
    /// Samples a second: 4800 or 4000.
    pub rate: u32,
    /// The power system's frequency in Hz: 50 or 60.
    pub nominal: u32,
    /// Samples a cycle: 96 at 4800 samples a second and 50 Hz, 80 at 4800 and 60 and at 4000 and 50.
    /// It is no key of the file.
    pub n: u32,
    /// The second since 1970 of sample 0, in the years 1970 to 2099.
    pub start: u32,
    /// The longest time between two GOOSE frames: 100 to 60000 ms.
    pub heartbeat_ms: u32,
}

/// One line: its measurement, its impedance and its protection.
#[derive(Drop)]
pub struct LineSettings {
    /// The name in the event log: 1 to 16 bytes from 0x21 to 0x7E, and not `frame`.
    pub name: ArrayVec<u8, 16>,
    /// The svID of the line's samples: 1 to 129 bytes from 0x20 to 0x7E.
    pub sv_id: ArrayVec<u8, 129>,
    /// The confRev of the line's samples: any.
    pub conf_rev: u32,
    /// The quality bits that make a sample bad: any.
    pub quality_mask: u32,
    /// The least smpSynch of a good sample: 0 to 2.
    pub synch_min: u8,
    /// The line's resistance in positive sequence: 0 to 1000000 milliohms.
    pub line_r: i64,
    /// The line's reactance in positive sequence: 1 to 1000000 milliohms.
    pub line_x: i64,
    /// The real part of the residual compensation factor: -4000 to 4000 thousandths.
    pub k0_re: i64,
    /// The imaginary part of the residual compensation factor: -4000 to 4000 thousandths.
    pub k0_im: i64,
    /// The least loop current of a zone: 1 to 100000000 mA.
    pub i_min: u32,
    /// The least 3I0 of a ground loop: 1 to 100000000 mA.
    pub i0_min: u32,
    /// The least 3I2 of a direction by negative sequence: 1 to 100000000 mA.
    pub dir_i2: u32,
    /// The 3U1 below which the polarising voltage comes from memory: 1 to 100000000 counts of 10 mV.
    pub mem_u: u32,
    /// How long a remembered voltage polarises: 0 to 5000 ms.
    pub mem_ms: u32,
    /// How long a trip lasts at least: 0 to 10000 ms.
    pub trip_min_ms: u32,
    /// The phase current below which the line is dead: 1 to 100000000 mA.
    pub open_i: u32,
    /// How long the line is dead before a trip ends: 1 to 10000 ms.
    pub open_ms: u32,
    /// The mimic filter; where it is missing, samples are used as they are.
    pub mimic: Option<Mimic>,
    /// Blocking by power swing.
    pub swing: Option<SwingSettings>,
    /// Blocking by a voltage transformer's fuse.
    pub fuse: Option<FuseSettings>,
    /// Blocking by load.
    pub load: Option<LoadSettings>,
    /// What the line publishes.
    pub goose: GooseSettings,
    /// The zones, the first to be tested first.
    pub zones: ArrayVec<ZoneSettings, 5>,
}

/// The mimic filter: a filtered value is `a` times the value less `b` times the one before, divided by
/// 1024 and rounded down.
#[derive(Clone, Copy, PartialEq, Eq, Debug)]
pub struct Mimic {
    /// The factor of the value: 0 to 65536.
    pub a: i64,
    /// The factor of the value before: 0 to 65536.
    pub b: i64,
}

/// The blinders of the power swing rule, and its times.
#[derive(Clone, Copy, PartialEq, Eq, Debug)]
pub struct SwingSettings {
    /// The outer blinder's resistance: 1 to 1000000 milliohms.
    pub outer_r: i64,
    /// The outer blinder's reactance: 1 to 1000000 milliohms.
    pub outer_x: i64,
    /// The inner blinder's resistance, below the outer one: 1 to 1000000 milliohms.
    pub inner_r: i64,
    /// The inner blinder's reactance, below the outer one: 1 to 1000000 milliohms.
    pub inner_x: i64,
    /// How long the impedance stays between the blinders before a swing is declared: 1 to 10000 ms.
    pub pass_ms: u32,
    /// How long a declared swing blocks at most: 1 to 60000 ms.
    pub max_ms: u32,
    /// The share of 3I2 in 3I1 from which the line is unbalanced: 0 to 1000 thousandths.
    pub i2_share: u32,
}

/// The fuse rule.
#[derive(Clone, Copy, PartialEq, Eq, Debug)]
pub struct FuseSettings {
    /// The least 3U2 of a suspect sample: 1 to 100000000 counts of 10 mV.
    pub u2_min: u32,
    /// The 3I2 from which there is a fault, and no blown fuse: 1 to 100000000 mA.
    pub i2_max: u32,
    /// How long a suspect sample blocks: 1 to 60000 ms.
    pub hold_ms: u32,
}

/// The load rule.
#[derive(Clone, Copy, PartialEq, Eq, Debug)]
pub struct LoadSettings {
    /// The least resistance of the load, in either direction: 1 to 1000000 milliohms.
    pub r: i64,
    /// The most reactance of the load for each ohm of its resistance: 0 to 10000 thousandths.
    pub slope: i64,
}

/// What a line publishes as GOOSE.
#[derive(Drop)]
pub struct GooseSettings {
    /// The frames' destination.
    pub dst: [u8; 6],
    /// The frames' source.
    pub src: [u8; 6],
    /// The APPID: any.
    pub appid: u16,
    /// The priority of the frames' VLAN tag: 0 to 7.
    pub vlan_priority: u8,
    /// The identifier of the frames' VLAN: 0 to 4095.
    pub vlan_id: u16,
    /// The control block reference: 1 to 129 bytes from 0x20 to 0x7E.
    pub gocb_ref: ArrayVec<u8, 129>,
    /// The data set's reference: 1 to 129 bytes from 0x20 to 0x7E.
    pub dat_set: ArrayVec<u8, 129>,
    /// The goID: 1 to 129 bytes from 0x20 to 0x7E.
    pub go_id: ArrayVec<u8, 129>,
    /// The confRev of the frames: any.
    pub conf_rev: u32,
}

/// One zone: what it is to the ground loops and to the phase loops, one of them at least.
#[derive(Clone, Copy, PartialEq, Eq, Debug)]
pub struct ZoneSettings {
    /// What it is to the loops AG, BG and CG; where it is missing, none of them is inside.
    pub ground: Option<ZonePart>,
    /// What it is to the loops AB, BC and CA; where it is missing, none of them is inside.
    pub phase: Option<ZonePart>,
    /// The direction that the zone asks.
    pub dir: Dir,
    /// Whether the zone trips.
    pub trip: bool,
    /// Whether a power swing blocks the zone.
    pub swing_block: bool,
    /// Whether load blocks the zone.
    pub load_block: bool,
}

/// A zone's part: where it reaches, and how long it waits.
#[derive(Clone, Copy, PartialEq, Eq, Debug)]
pub struct ZonePart {
    /// Where it reaches.
    pub shape: Shape,
    /// How long a loop is inside before the zone operates: 0 to 60000 ms.
    pub delay_ms: u32,
}

/// The blank of the places of a list of zones that no zone fills.
impl Default for ZoneSettings {
    fn default() -> ZoneSettings {
        ZoneSettings {
            ground: None,
            phase: None,
            dir: Dir::Unasked,
            trip: false,
            swing_block: false,
            load_block: false,
        }
    }
}

/// Where a zone's part reaches.
#[derive(Clone, Copy, PartialEq, Eq, Debug)]
pub enum Shape {
    /// A circle through the origin with this reach: 0 to 1000000 milliohms of resistance and 1 to
    /// 1000000 of reactance.
    Mho(Cx),
    /// A quadrilateral.
    Quad(QuadSettings),
}

/// A quadrilateral.
#[derive(Clone, Copy, PartialEq, Eq, Debug)]
pub struct QuadSettings {
    /// The reach along the resistance, to either side: 1 to 1000000 milliohms.
    pub reach_r: i64,
    /// The reach along the reactance: 1 to 1000000 milliohms.
    pub reach_x: i64,
    /// How far the top falls for each ohm of resistance: -500 to 500 thousandths.
    pub tilt: i64,
    /// How far the sides lean for each ohm of reactance: 0 to 1000 thousandths.
    pub slope: i64,
    /// The reach behind the relay: 0 to 1000000 milliohms.
    pub back_x: i64,
}

/// The direction that a zone asks.
#[derive(Clone, Copy, PartialEq, Eq, Debug)]
pub enum Dir {
    /// Into the line.
    Forward,
    /// Behind the relay.
    Reverse,
    /// Either, or none.
    Unasked,
}
