//! What holds of pictures, each as the contract of a function that does nothing.

ghost use Rattle.std.specs.Prelude.{◌≡◌, List, ℕ};
ghost use Rattle.nvme_model.specs.History.{Past};
ghost use Rattle.nvme_model.specs.declared.config.ConfigNumbers.{ConfigNumbers};
ghost use Rattle.picture_shapes.specs.Picture.{picture_of};
ghost use Rattle.picture_shapes.specs.Columns.{columns_of};
ghost use Rattle.picture_shapes.specs.declared.picture.Aspect.{Aspect};

/// Each entry from one place to another, up to and with the first bad one, has one column, and no other entry has one.
pub fn each_entry_has_one_column()
    ensures heads { (c : ConfigNumbers) (from to : ℕ) (aspect : Aspect) (words : List ℕ) (past : Past) →
        (picture_of c from to aspect words past).heads ≡ columns_of c from to past }
{}
