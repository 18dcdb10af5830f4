//! Laws of the definitions: each is a function that does nothing, whose contract is the law.

ghost use Rattle.std.specs.Prelude.{◌≡◌, ◌≤◌, ℕ, Bool, List, ◌∷◌, Option, Some, Ok, All, length, sum_by};
ghost use Rattle.std.specs.Prelude.{true, false};
ghost use Rattle.std.specs.List.{list_any, join_with_byte};
ghost use Rattle.nb_image.specs.Images.{ImageList, has_name, selected_image, total_len};
ghost use Rattle.nb_imagecmd.specs.Arriving.{arrived_image, arrived};
ghost use Rattle.nb_imagecmd.specs.CarryingOut.{images_freed, image_effect};
ghost use Rattle.nb_imagecmd.specs.Executing.{script_taken};
ghost use Rattle.nb_imagecmd.specs.Freeing.{is_among};
ghost use Rattle.nb_imagecmd.specs.Options.{options_read};
ghost use Rattle.nb_imagecmd.specs.OptionWords.{GivenOption, options_spelled, options_meant};
ghost use Rattle.nb_imagecmd.specs.OptionWords.{BeginsWithoutOption};
ghost use Rattle.nb_imagecmd.specs.Promises.{HasShortNames, IsShortLine, Boots, IsSelectedWithin, HoldsFilesOf, args_len};
ghost use Rattle.nb_imagecmd.specs.Reading.{image_command};
ghost use Rattle.nb_imagecmd.specs.Stat.{stat_lines};
ghost use Rattle.nb_imagecmd.specs.declared.arriving.Arrival.{Arrival};
ghost use Rattle.nb_imagecmd.specs.declared.arriving.Arrival.TheVariants as arrival;
ghost use Rattle.nb_imagecmd.specs.declared.asking.Asking.{Asking};
ghost use Rattle.nb_imagecmd.specs.declared.commands.ImageCommand.{ImageCommand};
ghost use Rattle.nb_imagecmd.specs.declared.commands.ImageCommand.TheVariants as command;
ghost use Rattle.nb_imagecmd.specs.declared.outcome.ImageOutcome.{ImageOutcome};
ghost use Rattle.nb_imagecmd.specs.declared.outcome.ImageOutcome.TheVariants as outcome;
ghost use Rattle.nb_imagecmd.specs.declared.outcome.ScriptImage.{ScriptImage};

/// Options in any order before other words are read as what they say together, none of them twice.
pub fn spelled_options_are_read()
    ensures { (options : List GivenOption) (rest : List (List ℕ)) → BeginsWithoutOption rest
        → options_read (options_spelled options rest) ≡ options_meant options rest }
{}

/// What `imgexec` boots by a name is the image of that name, with the arguments that the command gives it.
pub fn named_images_are_booted()
    ensures { (base name : Option (List ℕ)) (autofree replace : Bool) (uri : List ℕ) (args : List (List ℕ))
        (list left : ImageList)
        → image_effect (command.Exec name autofree replace (Some uri) args) base list ≡ Ok (outcome.Boot, left)
        → Boots uri (join_with_byte 32 args) left }
{}

/// What a command boots that fetched a file is that file's image.
pub fn fetched_images_are_booted()
    ensures { (asking : Asking) (body uri : List ℕ) (depth : ℕ) (list left : ImageList)
        → arrived asking body uri depth list ≡ Ok (arrival.Boot, left)
        → selected_image left ≡ Some (arrived_image asking body uri) }
{}

/// After `imgfree` no image has a name that it was given.
pub fn freed_names_are_gone()
    ensures { (names : List (List ℕ)) (name : List ℕ) (list left : ImageList) (outcome : ImageOutcome)
        → is_among names name ≡ true → images_freed names list ≡ Ok (outcome, left)
        → list_any (has_name name) left.images ≡ false }
{}

/// Where all images have names of at most 255 bytes, they have so after a command, after a file has come for
/// one, and after a script has left.
pub fn names_stay_short()
    ensures commands { (command : ImageCommand) (base : Option (List ℕ)) (list left : ImageList)
        (outcome : ImageOutcome)
        → HasShortNames list → image_effect command base list ≡ Ok (outcome, left) → HasShortNames left }
    ensures files { (asking : Asking) (body uri : List ℕ) (depth : ℕ) (list left : ImageList)
        (arrival : Arrival) → length asking.name ≤ 255 → HasShortNames list
        → arrived asking body uri depth list ≡ Ok (arrival, left) → HasShortNames left }
    ensures scripts { (i : ℕ) (replace : Bool) (depth : ℕ) (list left : ImageList) (script : ScriptImage)
        → HasShortNames list → script_taken i replace depth list ≡ Ok (script, left) → HasShortNames left }
{}

/// The arguments that a line's command gives an image have at most 4,160 bytes.
pub fn arguments_are_short()
    ensures { (words : List (List ℕ)) (command : ImageCommand) → length words ≤ 64 → sum_by length words ≤ 4096
        → image_command words ≡ Ok command → args_len command ≤ 4160 }
{}

/// A line that `imgstat` prints for such images has at most 285 bytes.
pub fn printed_lines_are_short()
    ensures { (list : ImageList) → total_len list.images ≤ 536870912 → HasShortNames list
        → All IsShortLine (stat_lines list) }
{}

/// No image comes into the list but a file that has come: each image after a command, after a script has left and
/// after a file has come for a command has the name, the body and the URI of one before, or of that file's image.
/// The selected one is in the list.
pub fn lists_hold_what_was_fetched()
    ensures commands { (command : ImageCommand) (base : Option (List ℕ)) (list left : ImageList)
        (outcome : ImageOutcome)
        → IsSelectedWithin list → image_effect command base list ≡ Ok (outcome, left)
        → HoldsFilesOf list.images left }
    ensures files { (asking : Asking) (body uri : List ℕ) (depth : ℕ) (list left : ImageList)
        (arrival : Arrival)
        → IsSelectedWithin list → arrived asking body uri depth list ≡ Ok (arrival, left)
        → HoldsFilesOf (arrived_image asking body uri ∷ list.images) left }
    ensures scripts { (i : ℕ) (replace : Bool) (depth : ℕ) (list left : ImageList) (script : ScriptImage)
        → script_taken i replace depth list ≡ Ok (script, left) → HoldsFilesOf list.images left }
{}
