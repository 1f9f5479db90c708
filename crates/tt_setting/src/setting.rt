//! What stays the same while a program runs: the font's limits, its programs, and what kind of
//! program runs.

ghost use Rattle.std.specs.Prelude.{◌≡◌, ◌<◌, ◌≤ℤ◌, ◌^◌, Some, ℤ, pos};
ghost use Rattle.tt_code.specs.Control.{may_define as may_define_functions};
ghost use Rattle.tt_code.specs.Settings.{Setting as AnySetting, One, body_name as name_of_body, body_of as body_of_frames, body_offset as offset_of_body, contours_in, is_body, is_main_end, is_target as is_jump_target, program_of, starts_in_body, zone_size};
ghost use Rattle.tt_code.specs.Operands.{is_zone as is_zone_number};
ghost use Rattle.tt_code.specs.States.{is_below};
ghost use Rattle.tt_setting.specs.Ranges.{IsSettingInRange};
ghost use Rattle.tt_setting.specs.Settings.{frames_of, setting_of};
ghost use Rattle.tt_setting.specs.Spots.{spot_of};
ghost use Rattle.tt_setting.specs.Ranges.{AreProgramsShort};
ghost use Rattle.tt_setting.specs.Settings.{instruction_of, is_below_in};

use crate::spot::Spot;
use crate::zone::ZoneCell;
use tt_code::{Body, Frame, Instr, Limits, Program};

/// How many phantom points a glyph has, besides its own points (OpenType specification, "Phantom
/// points").
const PHANTOM_POINTS: u32 = 4;

/// What is added to the offset of a body of the CVT program to make its name.
const CVT_BODIES: u32 = 1 << 31;

/// Which program runs.
#[derive(Clone, Copy)]
pub enum Kind {
    /// The font program, `fpgm`.
    Font,
    /// The CVT program, `prep`.
    Cvt,
    /// A glyph program; how many points, phantom points not counted, and how many contours the
    /// glyph has.
    Glyph { points: u16, contours: u16 },
}

/// What a program may rely on. For the font program all three programs are the same, for the CVT
/// program `prep` is `main`.
#[derive(Clone, Copy)]
pub struct Setting<'a> {
    /// What the font allows its programs.
    pub limits: Limits,
    /// How many control values the font has.
    pub cvt: u32,
    /// Which kind of program runs.
    pub kind: Kind,
    /// The program that runs.
    pub main: &'a Program<'a>,
    /// The font program.
    pub font: &'a Program<'a>,
    /// The CVT program.
    pub prep: &'a Program<'a>,
    /// The functions with which the program starts, as number and body, in ascending order of the
    /// numbers.
    pub start: &'a [(u16, u32)],
}

/// A program point: the open calls and an offset.
#[derive(Clone, Copy)]
pub struct Point<'a> {
    /// The calls that haven't returned, the outermost first.
    pub frames: &'a [Frame],
    /// The offset in the program that has the innermost frame's body; without frames, in the main
    /// program.
    pub offset: u32,
}

impl Point<'_> {
    /// Returns in which program the point is.
    pub fn spot(&self) -> Spot
        ensures { result ≡ spot_of (frames_of self.now) }
    {
        match self.frames {
            [] => Spot::Main,
            [.., frame] => Spot::of_body(frame.body),
        }
    }
}

/// Returns the offset of a body in its program.
pub fn body_offset(body: u32) -> u32
    ensures { result ≡ offset_of_body body }
{
    if body < CVT_BODIES {
        body
    } else {
        body - CVT_BODIES
    }
}

/// Returns the body to which a point belongs.
pub fn body_of(point: &Point<'_>) -> Body
    ensures { result ≡ body_of_frames (frames_of point.now) }
{
    match point.frames {
        [] => Body::Main,
        [.., frame] => Body::Function(body_offset(frame.body)),
    }
}

/// Whether the two are the same body of the main program or of a function.
pub fn is_same_body(body: Body, other: Body) -> bool
    ensures { result ≡ is_body body (Some other) }
{
    match body {
        Body::Main => match other {
            Body::Main => true,
            _ => false,
        },
        Body::Function(first) => match other {
            Body::Function(second) => first == second,
            _ => false,
        },
        Body::Instruction(_) => false,
    }
}

/// Whether the number is an index below the bound.
pub fn is_index(number: i32, bound: u32) -> bool
    ensures { result ≡ is_below number bound }
{
    match u32::try_from(number) {
        Ok(index) => index < bound,
        Err(_) => false,
    }
}

impl<'a> Setting<'a> {
    /// Returns how many points the glyph zone has.
    pub fn glyph_zone(&self) -> u32
        ensures { result ≡ zone_size (setting_of self.now) One }
    {
        match self.kind {
            Kind::Font => 0,
            Kind::Cvt => 0,
            Kind::Glyph { points, .. } => u32::from(points) + PHANTOM_POINTS,
        }
    }

    /// Returns how many contours the glyph zone has.
    pub fn glyph_contours(&self) -> u32
        ensures { result ≡ contours_in (setting_of self.now) One }
    {
        match self.kind {
            Kind::Font => 0,
            Kind::Cvt => 0,
            Kind::Glyph { contours, .. } => u32::from(contours),
        }
    }

    /// Returns how many points the zone has; where it may be either zone, the smaller number of the
    /// two.
    pub fn points_in(&self, zone: ZoneCell) -> u32
        ensures { (z : ℤ)
            → is_below z result ≡ is_below_in (zone_size (setting_of self.now)) zone z }
    {
        let twilight = u32::from(self.limits.twilight);
        match zone {
            ZoneCell::Zero => twilight,
            ZoneCell::One => self.glyph_zone(),
            ZoneCell::Either => twilight.min(self.glyph_zone()),
        }
    }

    /// Whether the number is that of a point in the zone; where it may be either zone, in both.
    pub fn is_in(&self, zone: ZoneCell, number: i32) -> bool
        ensures { result ≡ is_below_in (zone_size (setting_of self.now)) zone number }
    {
        is_index(number, self.points_in(zone))
    }

    /// Returns how many contours the zone has; where it may be either zone, the smaller number of
    /// the two.
    pub fn contours_in(&self, zone: ZoneCell) -> u32
        ensures { (z : ℤ)
            → is_below z result ≡ is_below_in (contours_in (setting_of self.now)) zone z }
    {
        match zone {
            ZoneCell::Zero => 1,
            ZoneCell::One => self.glyph_contours(),
            ZoneCell::Either => self.glyph_contours().min(1),
        }
    }

    /// Whether the number is that of a contour in the zone; where it may be either zone, in both.
    pub fn is_contour(&self, zone: ZoneCell, number: i32) -> bool
        ensures { result ≡ is_below_in (contours_in (setting_of self.now)) zone number }
    {
        is_index(number, self.contours_in(zone))
    }

    /// States that the programs consist of bytes and are shorter than 2^31 bytes, and that
    /// maxStackElements has 16 bits, as is always so.
    pub fn range_facts(&self)
        ensures range { IsSettingInRange (setting_of self.now) }
        ensures short { AreProgramsShort (setting_of self.now) }
    {
        prove!(self.main.len() < 1 << 31);
        prove!(self.font.len() < 1 << 31);
        prove!(self.prep.len() < 1 << 31);
        prove!(u32::from(self.limits.stack) < 1 << 16);
    }

    /// Returns the program in which a point is.
    pub fn program(&self, point: &Point<'_>) -> &'a Program<'a>
        ensures { result.now ≡ program_of (setting_of self.now) (frames_of point.now) }
    {
        match point.frames {
            [] => self.main,
            [.., frame] => {
                if frame.body < CVT_BODIES {
                    self.font
                } else {
                    self.prep
                }
            }
        }
    }

    /// Whether control may jump from the point to an offset: to an instruction of the same body or,
    /// in the main program, to its end.
    pub fn is_target(&self, point: &Point<'_>, target: i64) -> bool
        requires { target ≤ℤ pos 4294967295 }
        ensures { result ≡ is_jump_target (setting_of self.now) (frames_of point.now) target }
    {
        match u32::try_from(target) {
            Ok(offset) => self.starts(point, offset) || self.is_end(point, offset),
            Err(_) => false,
        }
    }

    /// Whether an instruction of the point's body starts at the offset.
    pub fn starts(&self, point: &Point<'_>, offset: u32) -> bool
        ensures { result ≡ starts_in_body (setting_of self.now) (frames_of point.now) offset }
    {
        match self.program(point).body_at(offset) {
            Some(body) => is_same_body(body_of(point), body),
            None => false,
        }
    }

    /// Returns the instruction that starts at the point, if one of the point's body does.
    pub fn instruction(&self, point: &Point<'_>) -> Option<Instr<'a>>
        ensures { result ≡ instruction_of (setting_of self.now) (frames_of point.now)
            point.now.offset }
    {
        let (instr, body) = self.program(point).found_at(point.offset)?;
        if is_same_body(body_of(point), body) {
            Some(instr)
        } else {
            None
        }
    }

    /// Whether the point has no calls, and the offset is the main program's end.
    pub fn is_end(&self, point: &Point<'_>, offset: u32) -> bool
        ensures { result ≡ is_main_end (setting_of self.now) (frames_of point.now) offset }
    {
        point.frames.is_empty() && offset == self.main.len()
    }

    /// Whether the program may define functions.
    pub fn may_define(&self) -> bool
        ensures { result ≡ may_define_functions (setting_of self.now).kind }
    {
        match self.kind {
            Kind::Font => true,
            Kind::Cvt => true,
            Kind::Glyph { .. } => false,
        }
    }

    /// Returns the name of a body that the program defines at an offset below 2^31.
    pub fn body_name(&self, offset: u32) -> u32
        requires { offset < 2 ^ 31 }
        ensures { result ≡ name_of_body (setting_of self.now).kind offset }
    {
        match self.kind {
            Kind::Cvt => CVT_BODIES + offset,
            _ => offset,
        }
    }

    /// Whether the number names a zone that the font has.
    pub fn is_zone(&self, number: i32) -> bool
        ensures { result ≡ is_zone_number (setting_of self.now) number }
    {
        match number {
            0 => self.limits.zones >= 2,
            1 => true,
            _ => false,
        }
    }
}
