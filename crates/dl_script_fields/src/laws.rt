//! Laws of what fields say.

ghost use Rattle.std.specs.Prelude.{◌≡◌, ◌++◌, List, ℕ, true, Some, Ok};
ghost use Rattle.std.specs.List.{list_all};
ghost use Rattle.dl_bytes.specs.Payload.{Arguments};
ghost use Rattle.dl_bytes.specs.declared.cursor.Order.TheVariants.{Little};
ghost use Rattle.dl_args.specs.Reading as reading;
ghost use Rattle.dl_args.specs.declared.arg.Arg.{Arg};
ghost use Rattle.dl_script_fields.specs.Argument.{argument_of, arguments_of, payload_of};
ghost use Rattle.dl_script_fields.specs.Fields.{fields_of};
ghost use Rattle.dl_script_fields.specs.Joined.{is_field, parted_by_blanks};
ghost use Rattle.dl_script_fields.specs.Spelling.{spelling, IsSayable};
ghost use Rattle.dl_script_fields.specs.Spells.{IsSaid};

/// A script can say every argument that has a written form, with any text, every number of its width, and any bytes but
/// none; what it says is read as that very argument. A name and a unit have letters, digits and `_`.
pub fn each_argument_can_be_said()
    ensures { (a : Arg) → IsSayable a → argument_of (spelling a) ≡ Ok a }
{}

/// What a log line says is what a reader of its message's payload reads: the same arguments in the same order.
pub fn what_is_said_is_read()
    ensures { (fields : List (List ℕ)) (args : List Arg) (payload : Arguments) → arguments_of fields ≡ Ok args
        → payload_of args ≡ Some payload → reading.arguments_of Little payload.args payload.bytes ≡ Ok args }
{}

/// Fields that are parted by blanks are read as those fields: quoted texts, and bytes without a blank that begin with no
/// quote.
pub fn fields_are_parted_by_blanks()
    ensures { (fields : List (List ℕ)) → list_all is_field fields ≡ true → fields_of (parted_by_blanks fields) ≡ Some fields }
{}

/// What a script says of an argument is one field of its line: a text in quotes, or bytes without a blank.
pub fn an_argument_is_a_field()
    ensures { (a : Arg) → IsSaid a → is_field (spelling a) ≡ true }
{}
