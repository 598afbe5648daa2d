// What an image was read from.
ghost use Rattle.std.specs.Prelude.{◌≡◌, ◌++◌, ◌∷◌, []};
ghost use Rattle.arj_image.specs.Grammar.{FitsAt, Form, next_place, nothing_read};
ghost use Rattle.arj_image.specs.Known.{IsBare};
ghost use Rattle.arj_image.specs.Written.{Goes, ImageInForm, image_forms, image_text, read_forms, whole_place};
ghost use Rattle.arj_image.specs.declared.image.Image.{Image};
ghost use Rattle.arj_image.specs.declared.place.Place.{Place};

/// Each line that is taken stands behind those that were read. It does nothing when it runs.
pub fn lines_are_kept()
    ensures { (p : Place) (f : Form) → IsBare p.stage p.image → FitsAt p.stage p.image f
        → read_forms (next_place p f) ≡ read_forms p ++ f ∷ [] }
{}

/// The lines of an image in form may be taken in turn, and lead to it; and no two images in form have one text. It does nothing
/// when it runs.
pub fn one_text_per_image()
    ensures read { (i : Image) → ImageInForm i → Goes nothing_read (image_forms i) (whole_place i) }
    ensures once { (i j : Image) → ImageInForm i → ImageInForm j → image_text i ≡ image_text j → i ≡ j }
{}
