//! A small decoder: an actor that expands runs of zeros, and a network that orders 64 numbers and clamps each. What a run
//! of it leaves.

use kit_commands::cut;
use std::alloc::{AllocError, Global};

/// The network and its actors.
pub(crate) const FILES: &str =
    "dec/Top.xdf <XDF name='Top'><Port kind='Input' name='In'><Type name='int'><Entry kind='Expr' name='size'><Expr kind='Literal' literal-kind='Integer' value='16'/></Entry></Type></Port><Port kind='Output' name='Out'><Type name='uint'><Entry kind='Expr' name='size'><Expr kind='Literal' literal-kind='Integer' value='8'/></Entry></Type></Port><Instance id='rl'><Class name='dec.Rld'/></Instance><Instance id='blk'><Class name='dec.Block'/></Instance><Connection src='' src-port='In' dst='rl' dst-port='In'/><Connection src='rl' src-port='Out' dst='blk' dst-port='In'/><Connection src='blk' src-port='Out' dst='' dst-port='Out'/></XDF>
+ dec/Block.xdf <XDF name='Block'><Port kind='Input' name='In'><Type name='int'><Entry kind='Expr' name='size'><Expr kind='Literal' literal-kind='Integer' value='16'/></Entry></Type></Port><Port kind='Output' name='Out'><Type name='uint'><Entry kind='Expr' name='size'><Expr kind='Literal' literal-kind='Integer' value='8'/></Entry></Type></Port><Instance id='z'><Class name='dec.Zigzag'/></Instance><Instance id='s'><Class name='dec.Sat'/></Instance><Connection src='' src-port='In' dst='z' dst-port='In'/><Connection src='z' src-port='Out' dst='s' dst-port='In'/><Connection src='s' src-port='Out' dst='' dst-port='Out'/></XDF>
+ dec/Rld.cal package dec; actor Rld() int(size=16) In ==> int(size=16) Out :
  int(size=8) run := 0; int(size=16) level := 0;
  get: action In:[r, v] ==> do run := r; level := v; end
  zero: action ==> Out:[0] guard run > 0 do run := run - 1; end
  put: action ==> Out:[level] guard run = 0 end
  schedule fsm idle : idle (get) --> give; give (zero) --> give; give (put) --> idle; end
end
+ dec/Zigzag.cal package dec; actor Zigzag() int(size=16) In ==> int(size=16) Out :
  List(type:int(size=8), size=64) zz = [0, 1, 8, 16, 9, 2, 3, 10, 17, 24, 32, 25, 18, 11, 4, 5,
    12, 19, 26, 33, 40, 48, 41, 34, 27, 20, 13, 6, 7, 14, 21, 28, 35, 42, 49, 56, 57, 50, 43, 36,
    29, 22, 15, 23, 30, 37, 44, 51, 58, 59, 52, 45, 38, 31, 39, 46, 53, 60, 61, 54, 47, 55, 62, 63];
  action In:[x] repeat 64 ==> Out:[y] repeat 64
  var List(type:int(size=16), size=64) y
  do foreach int k in 0 .. 63 do y[zz[k]] := x[k]; end end
end
+ dec/Sat.cal package dec; actor Sat() int(size=16) In ==> uint(size=8) Out :
  action In:[v] ==> Out:[if v + 128 < 0 then 0 else if v + 128 > 255 then 255 else v + 128 end end] end
end";

/// A run of it on 16 bytes: four runs of zeros, each with the number behind it.
pub(crate) const WORDS: &str = "rvc run dec/Top.xdf In=block Out=out --trace t";

/// What that run reports.
pub(crate) const REPORT: &[u8] =
    b"instances 3\nlinks 4\ncertified 3\nfirings 133\nrounds 5\nin In 0 tokens 8 rest 0\nout Out tokens 64\nquiet\n";

/// How many bytes of its trace stand before the first delivery.
pub(crate) const HEAD: usize = 70;

/// What its trace is made of: `text_of` says how.
const LINES: &str = "
1 rvc-trace_1_3_4|i_0_rl_dec.Rld|i_1_blk/z_dec.Zigzag|i_2_blk/s_dec.Sat|
1 r|f_0_0|f_0_2|f_0_0|f_0_2|f_0_0|f_0_1|f_0_1|f_0_2|f_0_0|
55 f_0_1|
1 r|
3 f_0_1|
1 f_0_2|r|f_1_0|r|
64 f_2_0|
1 r|q|";

/// What its output is made of: how often a byte comes, and the byte.
const BYTES: &str = "
1 228
1 0
7 128
1 155
53 128
1 133";

/// A number, or 0.
pub(crate) fn number(text: &str) -> u64 {
    text.parse().unwrap_or(0)
}

/// A text of pieces, each in a line with how often it comes. In a piece `_` is a blank and `|` the end of a line.
///
/// # Errors
///
/// `AllocError` if memory runs out.
pub(crate) fn text_of(alloc: Global, pieces: &str) -> Result<String, AllocError> {
    let mut text = String::new(alloc);
    for line in pieces.lines() {
        let (count, piece) = cut(line, " ");
        for _time in 0..number(count) {
            put_piece(&mut text, piece)?;
        }
    }
    Ok(text)
}

fn put_piece(text: &mut String, piece: &str) -> Result<(), AllocError> {
    for letter in piece.chars() {
        text.push(match letter {
            '_' => ' ',
            '|' => '\n',
            other => other,
        })?;
    }
    Ok(())
}

/// The trace of that run.
///
/// # Errors
///
/// `AllocError` if memory runs out.
pub(crate) fn trace(alloc: Global) -> Result<String, AllocError> {
    text_of(alloc, LINES)
}

/// The output of that run.
///
/// # Errors
///
/// `AllocError` if memory runs out.
pub(crate) fn output(alloc: Global) -> Result<Vec<u8>, AllocError> {
    let mut bytes = Vec::new(alloc);
    for line in BYTES.lines() {
        let (count, byte) = cut(line, " ");
        for _time in 0..number(count) {
            bytes.push(byte.parse().unwrap_or(0))?;
        }
    }
    Ok(bytes)
}
