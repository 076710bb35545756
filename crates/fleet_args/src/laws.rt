//! Laws of the command line. These functions do nothing: their contracts are the laws.

ghost use Rattle.std.specs.Prelude.{◌≡◌, ◌≢◌, [], List, Some, None};
ghost use Rattle.std.specs.List.{All};
ghost use Rattle.clap.specs.Words.{Text, fault_of};
ghost use Rattle.fleet_args.specs.Commands.{commands, fleet};
ghost use Rattle.fleet_args.specs.Request.{IsReadAlone, command_and_rest};
ghost use Rattle.fleet_args.specs.Values.{AreNames, TakesValues};
ghost use Rattle.fleet_args.specs.declared.{arguments.Form.Form, arguments.OptionNames.OptionNames};

/// Of words that begin with the name of a command, the whole command line takes what this command by itself takes of
/// the words after it: it finds the same faults in them, and has the same values (`alone`). Words that begin with the
/// name of no command have a fault (`unnamed`).
pub fn commands_stand_alone()
    ensures alone { (names : OptionNames) (words : List Text)
        → (found : (Text × List (Text × Form)) × List Text) → command_and_rest words ≡ Some found
        → IsReadAlone names words found }
    ensures unnamed { (names : OptionNames) (words : List Text) → command_and_rest words ≡ None
        → fault_of (fleet names) words ≢ [] }
{}

/// Each text that an option of a command takes stands for a value: what is read of a number is a number of the range,
/// and a name is one of the option's. Words in which an option has another text have a fault, by `clap`'s definition; so
/// no option that was used passes for one that was not.
pub fn options_stand_for_values()
    ensures { (names : OptionNames) → AreNames names
        → All (λ c. All (TakesValues names) c.1) commands }
{}
