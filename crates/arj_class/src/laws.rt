// Laws of the class table and of payloads.
ghost use Rattle.std.specs.Prelude.{◌≡◌};
ghost use Rattle.arj_base.specs.declared.mode.Mode.TheVariants as lock_mode;
ghost use Rattle.arj_class.specs.Forms.{ValueInForm, payload_of};
ghost use Rattle.arj_class.specs.Table.{class_of, own_class, op_mode, value_after};
ghost use Rattle.arj_class.specs.declared.op.Op.{Op};
ghost use Rattle.arj_class.specs.declared.value.Value.{Value};

/// A read operation changes no value, and no operation changes the class of an object, gone or there. It does nothing when it runs.
pub fn operations_keep()
    ensures read { (op : Op) (v : Value) → op_mode op ≡ lock_mode.Read → value_after op v ≡ v }
    ensures class { (op : Op) (v : Value) → own_class (value_after op v) ≡ own_class v }
{}

/// Restoring what was saved gives the value: no two values of a class have one payload. It does nothing when it runs.
pub fn payloads_tell_values_apart()
    ensures { (v w : Value) → class_of v ≡ class_of w → ValueInForm v → ValueInForm w → payload_of v ≡ payload_of w → v ≡ w }
{}
