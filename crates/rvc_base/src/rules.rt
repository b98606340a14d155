//! The table of rules: for each its number, what breaks it, and the place that a refusal names.

use crate::refusal::Rule;

impl Rule {
    /// L1: a byte stands outside the alphabet, or a `!` without `=` at once behind it.
    ///
    /// Place: that byte.
    pub const FOREIGN_BYTE: Rule = Rule(101);
    /// L2: a comment is never closed.
    ///
    /// Place: its start.
    pub const OPEN_COMMENT: Rule = Rule(102);
    /// L3: a number needs more than 128 bits.
    ///
    /// Place: the number.
    pub const NUMBER_TOO_BIG: Rule = Rule(103);
    /// L4: a number is followed at once by `.` and a digit, by a letter or by `_`.
    ///
    /// Place: the number.
    pub const NUMBER_RUNS_ON: Rule = Rule(104);
    /// L5: a string literal.
    ///
    /// Place: its quote.
    pub const STRING_LITERAL: Rule = Rule(105);
    /// L6: a decimal number of several digits begins with 0.
    ///
    /// Place: the number.
    pub const LEADING_ZERO: Rule = Rule(106);
    /// G1: the tokens spell no file.
    ///
    /// Place: the first token that can't follow, or the end.
    pub const SPELLS_NO_FILE: Rule = Rule(201);
    /// G2: a tree is higher than 256.
    ///
    /// Place: the part that passes it.
    pub const TOO_HIGH: Rule = Rule(202);
    /// S1: a name, port or type is unknown.
    ///
    /// Place: the name.
    pub const UNKNOWN_NAME: Rule = Rule(301);
    /// S2: a name is declared twice in one scope, or two imports bring different things under one name.
    ///
    /// Place: the second.
    pub const DECLARED_TWICE: Rule = Rule(302);
    /// S3: an import isn't found.
    ///
    /// Place: the word `import`.
    pub const IMPORT_NOT_FOUND: Rule = Rule(303);
    /// S4: functions or procedures call themselves, directly or indirectly.
    ///
    /// Place: one such call.
    pub const RECURSION: Rule = Rule(304);
    /// S5: a file's package, name or kind isn't what the class or import asks for, or a name is used as what it isn't.
    ///
    /// Place: the file's start, or the name.
    pub const NOT_AS_ASKED: Rule = Rule(305);
    /// S6: imports lead in a circle.
    ///
    /// Place: one `import` on it.
    pub const IMPORT_CYCLE: Rule = Rule(306);
    /// T1: kinds don't match.
    ///
    /// Place: the expression.
    pub const WRONG_KIND: Rule = Rule(401);
    /// T2: a type argument is missing, unknown or outside its range.
    ///
    /// Place: the type.
    pub const WRONG_TYPE_ARGUMENT: Rule = Rule(402);
    /// T3: the type is `float`, `half` or `String`.
    ///
    /// Place: the type.
    pub const UNSUPPORTED_TYPE: Rule = Rule(403);
    /// T4: a constant is assigned.
    ///
    /// Place: the statement.
    pub const CONSTANT_ASSIGNED: Rule = Rule(404);
    /// T5: list lengths differ.
    ///
    /// Place: the expression.
    pub const WRONG_LENGTH: Rule = Rule(405);
    /// T6: a wrong number of arguments.
    ///
    /// Place: the call.
    pub const WRONG_NUMBER_OF_ARGUMENTS: Rule = Rule(406);
    /// T7: a constant expression traps.
    ///
    /// Place: the expression.
    pub const CONSTANT_TRAPS: Rule = Rule(407);
    /// T8: a list is a parameter or result of a function or procedure, or the type of a port.
    ///
    /// Place: the type.
    pub const LIST_NOT_ALLOWED: Rule = Rule(408);
    /// T9: an expression that must be constant isn't.
    ///
    /// Place: the expression.
    pub const NOT_CONSTANT: Rule = Rule(409);
    /// A1: a port is named twice in the header or in one action.
    ///
    /// Place: the second.
    pub const PORT_NAMED_TWICE: Rule = Rule(501);
    /// A2: patterns or outputs mix names and places, or are more than the ports.
    ///
    /// Place: the first wrong one.
    pub const WRONG_PORTS: Rule = Rule(502);
    /// A3: a tag is the prefix of no action's tag, `initialize` included.
    ///
    /// Place: the tag.
    pub const UNKNOWN_TAG: Rule = Rule(503);
    /// A4: two transitions send one action from one state to different states.
    ///
    /// Place: the later transition.
    pub const AMBIGUOUS_TRANSITION: Rule = Rule(504);
    /// A5: an action is above itself.
    ///
    /// Place: the first word `priority`.
    pub const PRIORITY_CYCLE: Rule = Rule(505);
    /// A6: a second `initialize`, or one with a guard.
    ///
    /// Place: it.
    pub const WRONG_INITIALIZE: Rule = Rule(506);
    /// Z1: a file passes its limit.
    ///
    /// Place: the first byte past it.
    pub const FILE_TOO_LONG: Rule = Rule(601);
    /// Z2: more than 256 actions or 1,024 states.
    ///
    /// Place: the actor.
    pub const TOO_MANY_ACTIONS: Rule = Rule(602);
    /// Z3: more than 32 ports in a direction.
    ///
    /// Place: the actor or network.
    pub const TOO_MANY_PORTS: Rule = Rule(603);
    /// Z4: a list has more than 16,384 scalars or items.
    ///
    /// Place: its type or expression.
    pub const LIST_TOO_LONG: Rule = Rule(604);
    /// Z5: a `repeat` is below 1, or an action takes or gives more than 4,096 tokens on a port.
    ///
    /// Place: the pattern or output.
    pub const WRONG_REPEAT: Rule = Rule(605);
    /// Z6: the variables of an actor have more than 65,536 scalars.
    ///
    /// Place: the actor.
    pub const TOO_MANY_VARIABLES: Rule = Rule(606);
    /// Z7: more than 1,024 instances.
    ///
    /// Place: the instance that passes.
    pub const TOO_MANY_INSTANCES: Rule = Rule(607);
    /// Z8: more than 4,096 links.
    ///
    /// Place: the start of the top file.
    pub const TOO_MANY_LINKS: Rule = Rule(608);
    /// Z9: capacities add to more than 16,777,216.
    ///
    /// Place: the start of the top file.
    pub const TOO_MUCH_CAPACITY: Rule = Rule(609);
    /// Z10: more than 1,024 files or 16,777,216 bytes.
    ///
    /// Place: the start of the file that passes.
    pub const TOO_MANY_FILES: Rule = Rule(610);
    /// Z11: a name is longer than 255 bytes.
    ///
    /// Place: the name.
    pub const NAME_TOO_LONG: Rule = Rule(611);
    /// Z12: capacities, each inner link's raised to the limit of growth, add to more than 16,777,216.
    ///
    /// Place: the words.
    pub const GROWN_TOO_MUCH: Rule = Rule(612);
    /// Z13: one period of a network of static actors has more than 16,777,216 firings.
    ///
    /// Place: the words.
    pub const PERIOD_TOO_LONG: Rule = Rule(613);
    /// F1: the text isn't of the closed grammar of networks.
    ///
    /// Place: the first byte that can't follow, or the end.
    pub const SPELLS_NO_NETWORK: Rule = Rule(701);
    /// F2: an element is unknown in its place.
    ///
    /// Place: its `<`.
    pub const UNKNOWN_ELEMENT: Rule = Rule(702);
    /// F3: an attribute is missing, twice or not one of its values.
    ///
    /// Place: the element's `<`.
    pub const WRONG_ATTRIBUTE: Rule = Rule(703);
    /// F4: the encoding isn't UTF-8.
    ///
    /// Place: the declaration, or the first wrong byte.
    pub const WRONG_ENCODING: Rule = Rule(704);
    /// F5: elements nest above 64, or an expression above 256.
    ///
    /// Place: the element.
    pub const NESTS_TOO_DEEP: Rule = Rule(705);
    /// N1: a class has no file.
    ///
    /// Place: its `Class`, or the words.
    pub const NO_FILE: Rule = Rule(801);
    /// N2: a parameter is unknown, given twice, or has neither value nor default.
    ///
    /// Place: its `Parameter`, the `Instance`, or the words.
    pub const WRONG_PARAMETER: Rule = Rule(802);
    /// N3: a network holds itself, directly or indirectly.
    ///
    /// Place: one `Class` on the circle.
    pub const NETWORK_CYCLE: Rule = Rule(803);
    /// N4: an instance's input or a network's own output has a second writer.
    ///
    /// Place: the second `Connection`.
    pub const SECOND_WRITER: Rule = Rule(804);
    /// N5: an instance or port is unknown, or of the wrong direction.
    ///
    /// Place: the `Connection`.
    pub const UNKNOWN_END: Rule = Rule(805);
    /// N6: a Boolean port meets another kind.
    ///
    /// Place: the `Connection`.
    pub const BOOL_MEETS_NUMBER: Rule = Rule(806);
    /// N7: `src` and `dst` are both empty.
    ///
    /// Place: the `Connection`.
    pub const NO_ENDS: Rule = Rule(807);
    /// N8: a port, declaration or instance is declared twice.
    ///
    /// Place: the second.
    pub const NETWORK_NAME_TWICE: Rule = Rule(808);
    /// N9: a `bufferSize` isn't a number from 1 to 1,048,576.
    ///
    /// Place: its `Attribute`.
    pub const WRONG_BUFFER_SIZE: Rule = Rule(809);
    /// N10: a network declares a parameter behind a variable, which its text can't say.
    ///
    /// Place: the parameter.
    pub const PARAMETER_BEHIND_VARIABLE: Rule = Rule(810);
    /// N11: the file that an edit names isn't found.
    ///
    /// Place: the edit's number among the words of edits.
    pub const EDIT_FILE_MISSING: Rule = Rule(811);
    /// P1: a port word names no port that the command opens.
    ///
    /// Place: its number among the port words.
    pub const UNKNOWN_PORT: Rule = Rule(901);
    /// P2: a port is named by two words.
    ///
    /// Place: the second's number.
    pub const PORT_TWICE: Rule = Rule(902);
}
