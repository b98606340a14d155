//! What holds of jobs of the verb.

ghost use Rattle.cmd_gen.specs.Jobs.{TopsAreNumbers};

/// The top of each job of the verb `gen` is the number of a network that can be generated.
pub fn jobs_to_generate_have_numbers()
    ensures { TopsAreNumbers }
{}
