// What is left of an object that is gone.
ghost use Rattle.std.specs.Prelude.{◌≡◌, ◌≢◌, [], ◌∷◌, true, false, IfOk, IsErrOf, MatchOption};
ghost use Rattle.arj_base.specs.State.{class_code_of, is_object_class as is_of_objects};
ghost use Rattle.arj_base.specs.declared.state.Class.{Class};
ghost use Rattle.arj_class.specs.declared.object_class.ClassFault.TheVariants.{Payload};

use crate::ClassFault;
use arj_base::{Bytes, Class, class_code, class_of_code, is_object_class};
use std::alloc::{AllocError, Global};
use std::marker::Model;

/// What is left of an object that is gone: its class. Contracts see it as that class.
#[derive(Drop)]
pub struct Gone {
    class: Class,
}

impl Model for Gone {
    ghost use Rattle.std.specs.Prelude.{◌≡◌, true};
    ghost use Rattle.arj_base.specs.State.{is_object_class};
    ghost use Rattle.arj_base.specs.declared.state.Class.{Class};

    ghost Value = { Class };

    ghost view = { λ v. v.class };

    ghost invariant = { λ v. is_object_class v.class ≡ true };
}

impl Gone {
    /// An object of this class that is gone, None exactly where no object has the class.
    pub fn new(class: Class) -> Option<Gone>
        ensures { MatchOption result (is_of_objects class ≡ false) (λ gone. gone ≡ class) }
    {
        if !is_object_class(class) {
            return None;
        }
        Some(Gone { class })
    }

    /// The class that the object has.
    pub fn class(&self) -> Class
        ensures class { result ≡ self.now }
        ensures object { is_of_objects result ≡ true }
    {
        self.class
    }

    /// Another object of the same class that is gone.
    pub fn copy(&self) -> Gone
        ensures { result ≡ self.now }
    {
        Gone { class: self.class }
    }

    /// It is in form. It does nothing when it runs.
    pub(crate) fn in_form(&self)
        ensures { is_of_objects self.now ≡ true }
    {
        let _ = &self.class;
    }

    /// The payload of its packed state: the class in one byte.
    pub fn save_state(&self, alloc: Global) -> Result<Bytes, AllocError>
        ensures payload { IfOk result (λ payload. payload ≡ class_code_of self.now ∷ []) }
        ensures object { is_of_objects self.now ≡ true }
    {
        let mut payload = Bytes::new(alloc);
        payload.push(class_code(self.class))?;
        Ok(payload)
    }

    /// What is gone with this payload: one byte from 1 to 5, the class.
    pub fn restore_state(payload: &[u8]) -> Result<Gone, ClassFault>
        ensures payload { IfOk result (λ gone. class_code_of gone ∷ [] ≡ payload.now) }
        ensures object { IfOk result (λ gone. is_of_objects gone ≡ true) }
        ensures none { IsErrOf result Payload → (c : Class) → is_of_objects c ≡ true → class_code_of c ∷ [] ≢ payload.now }
    {
        let [code] = payload else {
            return Err(ClassFault::Payload);
        };
        match class_of_code(*code) {
            Some(class) => Gone::new(class).ok_or(ClassFault::Payload),
            None => Err(ClassFault::Payload),
        }
    }
}
