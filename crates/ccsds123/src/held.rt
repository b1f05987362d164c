//! What a handle of C's keeps: a scene on the heap, or nothing.

ghost use Rattle.std.specs.Prelude.{◌≡◌, true, Option, None, Some};
ghost use Rattle.ccsds123.specs.declared.scene.SceneEncoder.{SceneEncoder};
ghost use Rattle.ccsds123.specs.Scenes.{IsOpen, is_there};

use crate::loose::Loose;
use crate::scene::SceneEncoder;
use std::alloc::Global;
use std::marker::Model;

/// The address of a scene that is under way, as C stores it; or no scene, whatever the address.
///
/// The address is one of bytes, since C knows nothing of what stands there.
#[repr(C)]
pub struct Held {
    at: *mut u8,
    pub ghost value: { Option SceneEncoder },
}

impl Model for Held {
    ghost use Rattle.ccsds123.specs.Held.{held_owns};

    ghost also_owns = { λ h. held_owns h.at h.value };
}

impl Held {
    /// Returns no scene, at address 0.
    pub fn none() -> Held
        ensures { result.value ≡ None }
    {
        Held {
            at: std::ptr::null_mut(),
        }
    }

    /// Keeps a scene that is under way.
    pub fn of(scene: Loose<SceneEncoder, Global>) -> Held
        requires { IsOpen scene.value }
        ensures { result.value ≡ Some scene.value }
    {
        let Loose { at, alloc: _ } = scene;
        Held { at: at as *mut u8 }
    }

    /// Returns the scene that is kept.
    pub fn into_loose(self, alloc: Global) -> Loose<SceneEncoder, Global>
        requires { is_there self.value ≡ true }
        ensures value { self.value ≡ Some result.value }
        ensures open { IsOpen result.value }
    {
        let Held { at } = self;
        Loose {
            at: at as *mut SceneEncoder,
            alloc,
        }
    }

    /// Lets go of no scene.
    pub fn gone(self)
        requires { self.value ≡ None }
    {
        let Held { at: _ } = self;
    }
}
