//! The handle of an encoder, as C stores it.

ghost use Rattle.std.specs.Prelude.{◌≡◌, ◌==◌, None, Some, IfSome, IfNone};
ghost use Rattle.ccsds123.specs.Scenes.{IsOpen, is_there};

use crate::held::Held;
use crate::loose::Loose;
use crate::scene::SceneEncoder;
use std::alloc::Global;
use std::mem::replace;

/// An encoder that C has begun and not ended, or none: all zeros are none.
#[repr(C)]
pub struct EncoderRecord {
    pub held: Held,
    is_open: u32,
    ghost lawful: { is_there held.value ≡ (is_open == 1) },
}

impl EncoderRecord {
    fn none() -> EncoderRecord
        ensures { result.held.value ≡ None }
    {
        EncoderRecord {
            held: Held::none(),
            is_open: 0,
        }
    }

    fn open(scene: Box<SceneEncoder>) -> EncoderRecord
        requires { IsOpen scene.value }
        ensures { result.held.value ≡ Some scene.value }
    {
        EncoderRecord {
            held: Held::of(Loose::of(scene)),
            is_open: 1,
        }
    }

    fn into_scene(self, alloc: Global) -> Option<Box<SceneEncoder>>
        ensures scene { IfSome result (λ scene. (self.held.value ≡ Some scene.value) × IsOpen scene.value) }
        ensures none { IfNone result (self.held.value ≡ None) }
    {
        let EncoderRecord { held, is_open } = self;
        if is_open == 1 {
            return Some(held.into_loose(alloc).into_box());
        }
        held.gone();
        None
    }
}

/// Takes the scene out of a handle, which is then that of no encoder.
pub fn take_scene(alloc: Global, encoder: &mut EncoderRecord) -> Option<Box<SceneEncoder>>
    ensures scene { IfSome result (λ scene. (encoder.old.held.value ≡ Some scene.value) × IsOpen scene.value) }
    ensures none { IfNone result (encoder.old.held.value ≡ None) }
    ensures ended { encoder.new.held.value ≡ None }
{
    replace(encoder, EncoderRecord::none()).into_scene(alloc)
}

/// Puts a scene into the handle of no encoder.
pub fn put_scene(encoder: &mut EncoderRecord, scene: Box<SceneEncoder>)
    requires open { IsOpen scene.value }
    requires ended { encoder.old.held.value ≡ None }
    ensures { encoder.new.held.value ≡ Some scene.value }
{
    let EncoderRecord { held, is_open: _ } = replace(encoder, EncoderRecord::open(scene));
    held.gone();
}
