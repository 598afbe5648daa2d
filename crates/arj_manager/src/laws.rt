// Laws of overlays and images.
ghost use Rattle.std.specs.Prelude.{◌≡◌, if◌then◌else◌, is_some, true, false, List, [], ◌∷◌, ◌++◌, Some};
ghost use Rattle.std.specs.Option.{option_to_list};
ghost use Rattle.std.specs.List.{list_any, list_all};
ghost use Rattle.arj_base.specs.declared.uid.Uid.{Uid};
ghost use Rattle.arj_base.specs.Rows.{is_on, last_uid};
ghost use Rattle.arj_protocol.specs.Copy.{Over, Base, current, undone};
ghost use Rattle.arj_manager.specs.Runs.{Step, AllMay, base_run, image_run, images, overlay_run, stack_run};
ghost use Rattle.arj_manager.specs.Lists.{AreLists, Lists, images_in, list_run};
ghost use Rattle.arj_manager.specs.Views.{overlay, image, IsOneOver};
ghost use Rattle.arj_record.specs.Records as records;
ghost use Rattle.arj_record.specs.Records.{keep_calls, restored, undo_calls};

/// An abort takes the overlays of the action and of its descendants out, and what is in place then is the image of the
/// lowest of them. It does nothing when it runs.
pub fn aborts_agree()
    ensures overlays { (u : Uid) (gone stays : List Over) → list_all (λ e. is_on e.holder u) gone ≡ true → list_any (λ e. is_on e.holder u) stays ≡ false → undone u (gone ++ stays) ≡ stays }
    ensures now { (base : Base) (gone : List Over) (e : Over) (stays : List Over) → IsOneOver (gone ++ e ∷ stays)
        → image base (gone ++ e ∷ stays) (last_uid e.holder) ≡ Some (current base stays) }
{}

/// Under every list of calls that locks and the order of ends admit, what each action wrote, and what stands in place
/// with what stood there before each action's first write, are two views of one stack. It does nothing when it runs.
pub fn views_agree()
    ensures overlays { (steps : List Step) (es : List Over) → AllMay steps es → overlay_run steps (overlay es) ≡ overlay (stack_run steps es) }
    ensures images { (steps : List Step) (base : Base) (es : List Over) → AllMay steps es → image_run steps (images base es) ≡ images (base_run steps base es) (stack_run steps es) }
{}

/// Lists of records, one of each open action, are a third view of the stack, under every list of calls that locks and
/// the order of ends admit. The undo of an action's list gives the object the image that its overlay covers, and
/// nothing where it has none; and the keep of a top's list raises the object, with the top as writer, exactly where
/// it wrote. It does nothing when it runs.
pub fn records_agree()
    ensures images { (x : Uid) (steps : List Step) (base : Base) (es : List Over) (l : Lists) → AllMay steps es → AreLists x l → images_in x l ≡ images base es
        → images_in x (list_run x steps l) ≡ images (base_run steps base es) (stack_run steps es) }
    ensures lists { (x : Uid) (steps : List Step) (l : Lists) → AreLists x l → AreLists x (list_run x steps l) }
    ensures undo { (x u : Uid) (base : Base) (es : List Over) (l : Lists) → AreLists x l → images_in x l ≡ images base es
        → restored x (undo_calls u (l.kept u)) ≡ option_to_list (image base es u) }
    ensures keep { (x u : Uid) (base : Base) (es : List Over) (l : Lists) → AreLists x l → images_in x l ≡ images base es
        → records.raised x (keep_calls u (l.kept u)) ≡ (if is_some (image base es u) then u ∷ [] else []) }
{}
