//! The sentence that says why a program is refused, with the numbers of the case.

use crate::arrivals::Arrival;
use crate::element::Element;
use crate::scene::Scene;
use std::fmt;
use tt_code::Reason;
use tt_setting::{Failed, Register, Role, Setting, ZoneCell};

/// How many numbers of the stack there are, as it is printed.
#[derive(Clone, Copy)]
pub(crate) struct Numbers(pub usize);

impl fmt::Display for Numbers {
    fn fmt<W: fmt::Write>(&self, f: &mut fmt::Formatter<W>) -> fmt::Result {
        match self.0 {
            0 => f.write_str("no number"),
            1 => f.write_str("1 number"),
            count => write!(f, "{count} numbers"),
        }
    }
}

/// Writes how many there are more of something than are shown, if there are more.
pub(crate) fn write_more<W: fmt::Write>(
    before: &str,
    count: usize,
    shown: usize,
    f: &mut fmt::Formatter<W>,
) -> fmt::Result {
    match count.checked_sub(shown) {
        Some(more) if more > 0 => write!(f, "{before}and {more} more"),
        _ => Ok(()),
    }
}

/// Returns what a number is used as, in words.
fn role_text(role: Role) -> &'static str {
    match role {
        Role::Point => "the number of a point",
        Role::ControlValue => "the index of a control value",
        Role::StorageCell => "the index of a storage cell",
        Role::Zone => "the number of a zone",
        Role::Contour => "the number of a contour",
        Role::Count => "a count",
        Role::StackIndex => "the index of a number on the stack",
        Role::Distance => "the distance of a jump",
        Role::Function => "the number of a function",
        Role::Turns => "how often to call a function",
    }
}

/// Returns why a program is refused where the reason says all.
pub(crate) fn reason_text(reason: Reason) -> &'static str {
    match reason {
        Reason::InstructionDefinition => "IDEF defines an instruction, which isn't followed.",
        Reason::Definition => "FDEF defines a function in a glyph program, which may define none.",
        Reason::TooManyContexts =>
            "A function is entered here in more than 65,535 ways of calling.",
        Reason::NeverEnds => "No way through the program comes to its end.",
        Reason::DepthMismatch => "Ways that meet here bring stacks of different depths.",
        Reason::CannotCut => "The instruction here has fewer bytes than it needs.",
        Reason::Structure =>
            "IF, ELSE, EIF, FDEF, IDEF or ENDF is in a wrong place, or is missing.",
        Reason::MissingPoint => "The certificate has no state here.",
        Reason::NotCovered => "The certificate has a state here that doesn't cover what comes.",
        Reason::TooManySteps => "The search came to its bound of steps or states.",
        Reason::KeptEntry => "The program may write a number with which glyph programs start.",
        _ => "The instruction fails one of its tests.",
    }
}

/// Returns the number that is out of range, if that is why this test fails, what the instruction takes
/// it as, and in which zone.
pub(crate) fn out_of_range(failed: Failed) -> Option<(i32, Role, ZoneCell)> {
    let (number, role) = match failed {
        Failed::NoPoint { zone, number } | Failed::NoReferencePoint { zone, number, .. } => {
            return Some((number, Role::Point, zone));
        }
        Failed::NoContour { zone, number } => return Some((number, Role::Contour, zone)),
        Failed::NoControlValue { index } => (index, Role::ControlValue),
        Failed::NoStorageCell { index } => (index, Role::StorageCell),
        Failed::NoFunction { number } => (number, Role::Function),
        Failed::NoZone { number } => (number, Role::Zone),
        Failed::NegativeCount { count } => (count, Role::Count),
        Failed::LowIndex { index } => (index, Role::StackIndex),
        _ => return None,
    };
    Some((number, role, ZoneCell::Either))
}

/// Returns what an index has to be below that is taken as this in a zone.
pub(crate) fn bound_in(setting: &Setting<'_>, role: Role, zone: ZoneCell) -> u32 {
    match role {
        Role::Point => setting.points_in(zone),
        Role::ControlValue => setting.cvt,
        Role::StorageCell => u32::from(setting.limits.storage),
        Role::Contour => setting.contours_in(zone),
        Role::Function => u32::from(setting.limits.functions),
        Role::Zone | Role::Count | Role::StackIndex | Role::Distance | Role::Turns => 0,
    }
}

/// Why a program is refused.
#[derive(Clone, Copy)]
pub(crate) struct Why<'a> {
    pub scene: Scene<'a>,
    /// The test that fails.
    pub failed: Failed,
    /// How two ways come here with stacks of different depths, if that is why it fails.
    pub meeting: Option<(Arrival, Arrival)>,
}

impl Why<'_> {
    /// Returns how many cells the instruction takes, of which the stack hasn't enough.
    fn wanted(&self) -> usize {
        let least = match self.failed {
            Failed::NoElement { index } => usize::try_from(index).unwrap_or(0),
            _ => self.scene.view.depth(),
        };
        self.scene.exchange.takes.max(least.saturating_add(1))
    }

    /// Writes where the bound of an index comes from, as the end of a sentence.
    fn write_bound<W: fmt::Write>(&self, role: Role, f: &mut fmt::Formatter<W>) -> fmt::Result {
        let setting = self.scene.setting;
        let limits = setting.limits;
        match role {
            Role::Point => write!(
                f,
                "the glyph zone has {} points, phantom points included, and the twilight zone {}.",
                setting.glyph_zone(),
                limits.twilight
            ),
            Role::ControlValue => write!(f, "the font has {} control values.", setting.cvt),
            Role::StorageCell => write!(f, "maxStorage is {}.", limits.storage),
            Role::Function => write!(f, "maxFunctionDefs is {}.", limits.functions),
            _ => f.write_str("the zone has no other one."),
        }
    }

    /// Writes why a number that is out of range isn't one that the instruction can take.
    fn write_out_of_range<W: fmt::Write>(
        &self,
        number: i32,
        role: Role,
        zone: ZoneCell,
        f: &mut fmt::Formatter<W>,
    ) -> fmt::Result {
        let name = self.scene.name();
        write!(f, "{name} uses {number} as {}", role_text(role))?;
        match role {
            Role::Count => f.write_str(", and it has to be at least 0."),
            Role::StackIndex => f.write_str(", and it has to be at least 1."),
            Role::Zone => write!(
                f,
                ": zone 1 is the glyph's, and 0, the twilight zone, needs maxZones 2. It is {}.",
                self.scene.setting.limits.zones
            ),
            _ => {
                let bound = bound_in(self.scene.setting, role, zone);
                write!(f, ", and it has to be at least 0 and below {bound} here: ")?;
                self.write_bound(role, f)
            }
        }
    }

    /// Writes that a number isn't known that has to be, or isn't known well enough.
    fn write_unknown<W: fmt::Write>(
        &self,
        element: Element,
        f: &mut fmt::Formatter<W>,
    ) -> fmt::Result {
        let name = self.scene.name();
        let (role, zone) = match self.failed {
            Failed::UnknownIn(Register::Loop) => {
                return write!(f, "{name} uses {element}, and it isn't known here.");
            }
            Failed::Unknown { role, .. } => (role, ZoneCell::Either),
            Failed::MayBeOutside { role, zone, .. } => (role, zone),
            Failed::MayBeOutsideIn { zone, .. } => (Role::Point, zone),
            _ => (Role::Point, ZoneCell::Either),
        };
        write!(f, "{name} uses {element} as {}", role_text(role))?;
        let Some((low, high)) = self.scene.range(self.failed) else {
            return f.write_str(", and it isn't known here.");
        };
        write!(
            f,
            ". It may be any from {low} to {high} here, and it has to be at least 0 and below {}: ",
            bound_in(self.scene.setting, role, zone)
        )?;
        self.write_bound(role, f)
    }

    /// Writes why an instruction can't go where it leads, or why the reason says all.
    fn write_way<W: fmt::Write>(&self, f: &mut fmt::Formatter<W>) -> fmt::Result {
        let name = self.scene.name();
        match self.failed {
            Failed::Undefined { number } => write!(
                f,
                "{name} calls function {number}. Its number is below maxFunctionDefs, {}, \
                but no definition of it is known to have run before.",
                self.scene.setting.limits.functions
            ),
            Failed::NoTarget { by } => write!(
                f,
                "{name} jumps by {by} bytes to offset {}, and there no instruction \
                of the same program or function begins.",
                i64::from(self.scene.site.offset).saturating_add(i64::from(by))
            ),
            Failed::Running { number } => write!(
                f,
                "{name} calls function {number}, which is running already."
            ),
            _ => f.write_str(reason_text(self.failed.reason())),
        }
    }

    /// Writes which test fails of the stack, of the instruction's code or of the loop number; or
    /// where the instruction leads.
    fn write_other<W: fmt::Write>(&self, f: &mut fmt::Formatter<W>) -> fmt::Result {
        let name = self.scene.name();
        let holds = Numbers(self.scene.view.depth());
        match self.failed {
            Failed::TooDeep { depth } => write!(
                f,
                "The stack is {} deep before {name}, which takes {} and pushes {}: \
                it would be {depth} deep, and maxStackElements is {}.",
                holds.0,
                Numbers(self.scene.exchange.takes),
                self.scene.exchange.pushes,
                self.scene.setting.limits.stack
            ),
            Failed::TooFew { .. } | Failed::NoElement { .. } => write!(
                f,
                "{name} takes {} from the stack, which holds {holds} here.",
                Numbers(self.wanted())
            ),
            Failed::Only(Reason::Opcode) => write!(
                f,
                "The byte 0x{:02x} is the code of no instruction that is followed.",
                self.scene.code.unwrap_or(0)
            ),
            Failed::NegativeLoop { count } => write!(
                f,
                "{name} uses {count} as the loop number, and it has to be at least 0."
            ),
            _ => self.write_way(f),
        }
    }
}

impl fmt::Display for Why<'_> {
    fn fmt<W: fmt::Write>(&self, f: &mut fmt::Formatter<W>) -> fmt::Result {
        if let Some((one, other)) = self.meeting {
            return write!(
                f,
                "Ways that meet here bring stacks of different depths: \
                one comes {one}; another one {other}."
            );
        }
        if let Some((number, role, zone)) = out_of_range(self.failed) {
            return self.write_out_of_range(number, role, zone, f);
        }
        match Element::unknown(self.failed, self.scene.view.depth()) {
            Some(element) => self.write_unknown(element, f),
            None => self.write_other(f),
        }
    }
}
