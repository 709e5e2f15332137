//! The loops of a ready sample, and on which side of the relay their faults are.
ghost use Rattle.std.specs.Prelude.{ℕ, ◌≡◌, ◌<◌, ◌≤◌, ◌+◌, ◌⊎◌, ◌^◌, [], ◌∷◌, Option, None, IfSome};
ghost use Rattle.std.specs.Option.{ForSome};
ghost use Rattle.relay_num.specs.Numbers.{IsBelow};
ghost use Rattle.relay_num.specs.declared.Cx.{Cx};
ghost use Rattle.relay_settings.specs.Ranges.{IsLine};
ghost use Rattle.relay_settings.specs.Settings.{plain_line};
ghost use Rattle.loop_impedance.specs.Loops.{item, AreLoopsBelow};
ghost use Rattle.loop_impedance.specs.Masks.{mask, loop_mask, has_bit};
ghost use Rattle.direction.specs.Torques.{direction_of};
ghost use Rattle.line_relay.specs.Sizes.{IsMeasured};
ghost use Rattle.line_relay.specs.Inside.{is_forward, is_reverse, is_load_by};
ghost use Rattle.line_relay.specs.FormedLoops.{IsLoop, AreLoops, AreSides, sense_at, sense_with, sense_of_minus, pols_of, pol_at, minus_by};

use crate::measured::Measured;
use direction::{Sense, by_negative, loop_direction, sense_of_power};
use loop_impedance::{LoopPairs, loop_pols, loops};
use relay_num::{Cx, at_least_rms};
use relay_settings::LineSettings;
use supervise::load_blocks;
use zone_shape::FormedLoop;

/// The loops of a ready sample, each with what all zones ask of it.
#[derive(Drop)]
pub struct Loops {
    pub ag: FormedLoop,
    pub bg: FormedLoop,
    pub cg: FormedLoop,
    pub ab: FormedLoop,
    pub bc: FormedLoop,
    pub ca: FormedLoop,
}

/// The masks of the loops that a zone may hold.
#[derive(Clone, Copy, Drop)]
pub struct Sides {
    /// The loops with the least current.
    pub with_current: u8,
    /// Of these, the loops with a fault ahead.
    pub ahead: u8,
    /// And those with a fault behind.
    pub behind: u8,
    /// The impedance of the positive sequence is that of load.
    pub is_load: bool,
}

/// The loops of what is measured, with this polarising voltage. Nothing more is formed of them yet.
pub fn loops_of(settings: &LineSettings, m: &Measured, polarising: Option<Cx>) -> Loops
    requires settings { IsLine settings.now }
    requires measured { IsMeasured m.now }
    requires polarising { ForSome polarising (λ p. IsBelow p (2 ^ 32)) }
    ensures { AreLoops (plain_line settings.now) m.now polarising result }
{
    let k0 = Cx {
        re: settings.k0_re,
        im: settings.k0_im,
    };
    let pairs = loops(&m.voltages, &m.currents, k0);
    let pols = polarising_of(polarising);
    Loops {
        ag: FormedLoop::unformed(pairs.u[0], pairs.i[0], pol_of(&pols, 0)),
        bg: FormedLoop::unformed(pairs.u[1], pairs.i[1], pol_of(&pols, 1)),
        cg: FormedLoop::unformed(pairs.u[2], pairs.i[2], pol_of(&pols, 2)),
        ab: FormedLoop::unformed(pairs.u[3], pairs.i[3], pol_of(&pols, 3)),
        bc: FormedLoop::unformed(pairs.u[4], pairs.i[4], pol_of(&pols, 4)),
        ca: FormedLoop::unformed(pairs.u[5], pairs.i[5], pol_of(&pols, 5)),
    }
}

impl Loops {
    ghost use Rattle.std.specs.Prelude.{Option};
    ghost use Rattle.relay_num.specs.declared.Cx.{Cx};
    ghost use Rattle.relay_settings.specs.Settings.{PlainLine};
    ghost use Rattle.line_relay.specs.declared.measured.Measured.{Measured};
    ghost use Rattle.line_relay.specs.FormedLoops.{AreLoops};

    /// Forms what the shapes of zones ask of the loops in the mask, where they lie. No zone asks for the others.
    #[inline(always)]
    pub fn form(&mut self, with_current: u8, has_quad: bool)
        ensures { (settings : PlainLine) (m : Measured) (polarising : Option Cx) → AreLoops settings m polarising self.old → AreLoops settings m polarising self.new }
    {
        form_if(&mut self.ag, has_bit(with_current, 0), has_quad);
        form_if(&mut self.bg, has_bit(with_current, 1), has_quad);
        form_if(&mut self.cg, has_bit(with_current, 2), has_quad);
        form_if(&mut self.ab, has_bit(with_current, 3), has_quad);
        form_if(&mut self.bc, has_bit(with_current, 4), has_quad);
        form_if(&mut self.ca, has_bit(with_current, 5), has_quad);
    }
}

/// Forms one loop where it is asked for.
#[inline(always)]
fn form_if(formed: &mut FormedLoop, asked: bool, has_quad: bool)
    ensures { (u i : Cx) (pol : Option Cx) → IsLoop u i pol formed.old → IsLoop u i pol formed.new }
{
    if asked {
        formed.form(has_quad);
    }
}

fn polarising_of(polarising: Option<Cx>) -> Option<[Cx; 6]>
    requires { ForSome polarising (λ p. IsBelow p (2 ^ 32)) }
    ensures pols { result ≡ pols_of polarising }
    ensures size { ForSome result (λ pols. AreLoopsBelow pols (2 ^ 34)) }
{
    match polarising {
        Some(p) => Some(loop_pols(p)),
        None => None,
    }
}

/// The sides on which the faults of these loops are, of which these have the least current.
pub fn form_sides(
    settings: &LineSettings,
    n: u32,
    m: &Measured,
    loops: &Loops,
    with_current: u8,
) -> Sides
    requires settings { IsLine settings.now }
    requires n { (n ≡ 80) ⊎ (n ≡ 96) }
    requires measured { IsMeasured m.now }
    ensures { AreSides n (plain_line settings.now) m.now with_current loops.now result }
{
    let line = Cx {
        re: settings.line_r,
        im: settings.line_x,
    };
    let by_minus = sense_of_minus(line, minus_of(n, settings.dir_i2, m));
    let (ahead, behind) = side_masks(line, loops, by_minus, with_current);
    Sides {
        with_current,
        ahead,
        behind,
        is_load: is_load(settings, m),
    }
}

/// The sense that the negative sequence gives to every ground loop, where it decides.
fn sense_of_minus(line: Cx, minus: Option<(Cx, Cx)>) -> Option<Sense>
    requires line { IsBelow line (2 ^ 20) }
    requires minus { IfSome minus (λ m. IsBelow m.0 (2 ^ 32) × IsBelow m.1 (2 ^ 32)) }
    ensures { result ≡ sense_of_minus line minus }
{
    match minus {
        Some((u2, i2)) => Some(by_negative(line, u2, i2)),
        None => None,
    }
}

/// 3U2 and 3I2, where the latter decides the direction of ground loops.
fn minus_of(n: u32, dir_i2: u32, m: &Measured) -> Option<(Cx, Cx)>
    requires n { (n ≡ 80) ⊎ (n ≡ 96) }
    requires dir_i2 { dir_i2 ≤ 100000000 }
    requires measured { IsMeasured m.now }
    ensures minus { result ≡ minus_by n dir_i2 m.now }
    ensures size { ForSome result (λ m. IsBelow m.0 (2 ^ 32) × IsBelow m.1 (2 ^ 32)) }
{
    if at_least_rms(m.current.minus, n, dir_i2) {
        Some((m.voltage.minus, m.current.minus))
    } else {
        None
    }
}

fn is_load(settings: &LineSettings, m: &Measured) -> bool
    requires settings { IsLine settings.now }
    requires measured { IsMeasured m.now }
    ensures { result ≡ is_load_by settings.now.load m.now }
{
    match &settings.load {
        Some(load) => load_blocks(load, m.voltage.plus, m.current.plus),
        None => false,
    }
}

/// The masks of the loops with a fault ahead, and of those with a fault behind.
fn side_masks(line: Cx, loops: &Loops, by_minus: Option<Sense>, with_current: u8) -> (u8, u8)
    requires line { IsBelow line (2 ^ 20) }
    ensures ahead { result.0 ≡ loop_mask (λ lp. is_forward (sense_at line loops.now by_minus with_current lp)) }
    ensures behind { result.1 ≡ loop_mask (λ lp. is_reverse (sense_at line loops.now by_minus with_current lp)) }
{
    let ag = sense_of(line, &loops.ag, by_minus, with_current, 0);
    let bg = sense_of(line, &loops.bg, by_minus, with_current, 1);
    let cg = sense_of(line, &loops.cg, by_minus, with_current, 2);
    let ab = sense_of(line, &loops.ab, None, with_current, 3);
    let bc = sense_of(line, &loops.bc, None, with_current, 4);
    let ca = sense_of(line, &loops.ca, None, with_current, 5);
    let ahead = [
        is_forward(ag),
        is_forward(bg),
        is_forward(cg),
        is_forward(ab),
        is_forward(bc),
        is_forward(ca),
    ];
    let behind = [
        is_reverse(ag),
        is_reverse(bg),
        is_reverse(cg),
        is_reverse(ab),
        is_reverse(bc),
        is_reverse(ca),
    ];
    (mask_of(ahead), mask_of(behind))
}

/// The sense of a loop, where the negative sequence gives none by its polarising voltage; one without the least current
/// is not asked for it.
fn sense_of(
    line: Cx,
    formed: &FormedLoop,
    by_minus: Option<Sense>,
    with_current: u8,
    lp: usize,
) -> Sense
    requires line { IsBelow line (2 ^ 20) }
    requires lp { lp < 6 }
    ensures { result ≡ sense_with line formed.now.i formed.now.pol by_minus with_current lp }
{
    if !has_bit(with_current, lp) {
        return Sense::Neither;
    }
    match by_minus {
        Some(sense) => sense,
        None => polarised_sense(line, formed),
    }
}

/// The sense of a loop by its polarising voltage.
fn polarised_sense(line: Cx, formed: &FormedLoop) -> Sense
    requires line { IsBelow line (2 ^ 20) }
    ensures { result ≡ direction_of line formed.now.i formed.now.pol None }
{
    match formed.polarised() {
        Some(polarised) => sense_of_power(line, polarised.power()),
        None => loop_direction(line, formed.i, formed.pol, None),
    }
}

/// The polarising voltage of a loop, where there is one.
fn pol_of(pols: &Option<[Cx; 6]>, lp: usize) -> Option<Cx>
    requires pols { ForSome pols.now (λ pols. AreLoopsBelow pols (2 ^ 34)) }
    requires lp { lp < 6 }
    ensures pol { result ≡ pol_at pols.now lp }
    ensures size { ForSome result (λ p. IsBelow p (2 ^ 34)) }
{
    match pols {
        Some(pols) => Some(pols[lp]),
        None => None,
    }
}

fn is_forward(sense: Sense) -> bool
    ensures { result ≡ is_forward sense }
{
    match sense {
        Sense::Forward => true,
        Sense::Reverse | Sense::Neither => false,
    }
}

fn is_reverse(sense: Sense) -> bool
    ensures { result ≡ is_reverse sense }
{
    match sense {
        Sense::Reverse => true,
        Sense::Forward | Sense::Neither => false,
    }
}

/// Whether the loop's bit stands in the mask.
pub fn has_bit(mask: u8, lp: usize) -> bool
    requires { lp < 6 }
    ensures { result ≡ has_bit lp mask }
{
    (mask >> lp) & 1 == 1
}

/// The mask of six bits, the lowest first.
pub fn mask_of(bits: [bool; 6]) -> u8
    ensures { result ≡ mask bits }
{
    let [ag, bg, cg, ab, bc, ca] = bits;
    u8::from(ag)
        + 2 * u8::from(bg)
        + 4 * u8::from(cg)
        + 8 * u8::from(ab)
        + 16 * u8::from(bc)
        + 32 * u8::from(ca)
}
