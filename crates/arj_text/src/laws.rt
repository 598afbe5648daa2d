// What holds of all that a text can say.
ghost use Rattle.arj_class.specs.Forms.{OpInForm, ValueInForm};
ghost use Rattle.arj_class.specs.declared.op.Op.{Op};
ghost use Rattle.arj_class.specs.declared.value.Value.{Value};
ghost use Rattle.arj_text.specs.Fields.{OpTextInForm, ValueTextInForm};

/// Operations and values that a text can say are in form, as the class table asks. It does nothing when it runs.
pub fn texts_say_what_is_in_form()
    ensures op { (op : Op) → OpTextInForm op → OpInForm op }
    ensures value { (v : Value) → ValueTextInForm v → ValueInForm v }
{}
