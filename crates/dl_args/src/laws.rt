//! What holds of the written form and of the form that is read.

ghost use Rattle.std.specs.Prelude.{◌≡◌, ◌++◌, ℕ, List, length, Ok};
ghost use Rattle.std.specs.List.{flat_map, AllByRecursion};
ghost use Rattle.dl_bytes.specs.declared.cursor.Order.{Order};
ghost use Rattle.dl_bytes.specs.declared.cursor.Order.TheVariants.{Little};
ghost use Rattle.dl_bytes.specs.Payload.{Arguments};
ghost use Rattle.dl_args.specs.declared.arg.Arg.{Arg};
ghost use Rattle.dl_args.specs.Argument.{written, HasRoom, IsValue, IsWritable};
ghost use Rattle.dl_args.specs.ReadForm.{IsSpelling};
ghost use Rattle.dl_args.specs.Coming.{all_of, coming_of};
ghost use Rattle.dl_args.specs.Reading.{arguments_of};

/// What fits a payload has a written form, which is in the form that is read. What was written is read again, whatever
/// follows it.
pub fn written_is_read()
    ensures added { (a : Arg) (payload : Arguments) → IsValue a → HasRoom (written a) payload → IsWritable a }
    ensures spelling { (a : Arg) → IsWritable a → IsSpelling Little a (written a) }
    ensures again { (args : List Arg) (rest : List ℕ) → AllByRecursion IsWritable args
        → arguments_of Little (length args) (flat_map written args ++ rest) ≡ Ok args }
{}

/// No spelling of an argument begins another one in the same byte order.
pub fn no_spelling_begins_another()
    ensures { (order : Order) (a b : Arg) (s t x y : List ℕ) → IsSpelling order a s → IsSpelling order b t
        → s ++ x ≡ t ++ y → (a ≡ b) × (s ≡ t) }
{}

/// What a reader gives one by one is, taken together, what reading the payload gives: all arguments, or its fault.
pub fn one_by_one_is_all()
    ensures { (order : Order) (count : ℕ) (payload : List ℕ)
        → all_of (coming_of order count payload) ≡ arguments_of order count payload }
{}
