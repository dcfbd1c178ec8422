//! The procedures of a closed family are written as a program.
//!
//! `specs/rendering/Rendering.antt` writes a paragraph for each range, with items for its cells;
//! `Serving.antt` in the same folder says when the written parts do what the parts and the words on
//! cells do. The laws are `a_rendering_is_structured` and `rendering_keeps_meaning`. Nothing here
//! runs: the contracts are the laws.

ghost use Rattle.control_flow_theory.specs.semantics.Doing.{Celled};
ghost use Rattle.control_flow_theory.specs.rendering.WholeExample.{TheJumpIsRestructured};
ghost use Rattle.control_flow_theory.specs.rendering.Example.{IsWrittenAs, IsWritable, IsThenStructured};
ghost use Rattle.control_flow_theory.specs.rendering.Laws.{AnyPartsCanBeServed, MainWalksAlike, RenderingIsStructured, FollowersAreSound, SoundnessIsKept, RenderingKeepsMeaning, RestructuringKeepsMeaning};

/// A relation: the result's memory carries the program's own memory and the cells.
pub trait Carrying<Memory, Other> {
    ghost carries: { Celled Memory → Other → Type 0 };
}

/// A small family can be written, is written as shown, and is then structured.
pub fn a_small_family_is_written_as_said()
    ensures writable { IsWritable }
    ensures written { IsWrittenAs }
    ensures structured { IsThenStructured }
{}

/// Whatever the parts do, there are parts of a result that do it, and the words on cells as well.
pub fn any_parts_can_be_served<Memory, Left, World>()
    ensures { AnyPartsCanBeServed Memory Left World }
{}

/// The program that is written of procedures is structured.
pub fn a_rendering_is_structured()
    ensures { RenderingIsStructured }
{}

/// A family whose walk is tied to a source that meets no fault is sound, and so is one that walks
/// alike.
pub fn followers_are_sound<Memory, Left>()
    ensures follows { FollowersAreSound Memory Left }
    ensures alike { SoundnessIsKept Memory Left }
{}

/// Families whose walks of main are tied in some worlds, their first memories included, walk alike.
pub fn main_walks_alike<Memory, Left, World>()
    ensures { MainWalksAlike Memory Left World }
{}

/// The written program's nested statements do what the walk of its family does.
pub fn rendering_keeps_meaning<Memory, Other, Left, World, C: Carrying<Memory, Other>>()
    ensures { RenderingKeepsMeaning C.carries Left World }
{}

/// Lowered, shaped and written, a source that meets no fault is a structured program of the same
/// behaviour.
pub fn restructuring_keeps_meaning<Memory, Other, Left, World, C: Carrying<Memory, Other>>()
    ensures { RestructuringKeepsMeaning C.carries Left World }
{}

/// A small program with a jump has a written program of the same behaviour: the premises of the
/// whole chain can be met.
pub fn a_small_program_is_restructured()
    ensures { TheJumpIsRestructured }
{}
