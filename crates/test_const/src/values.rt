//! What expressions give over constants.

use crate::rows::{Asked, hold};

#[test]
fn values(rt: HostRuntime) {
    hold(&rt, rt.alloc(), "n l", Asked::Value, VALUES);
}

/// Expressions with their values, or why they have none.
const VALUES: &str = "
# -7 / 2
= -3
# -7 div 2
= -3
# -7 mod 2
= -1
# -7 >> 1
= -4
# 1 << 62
= 4611686018427387904
# 1 << 63
= 9223372036854775808
# 1 << 64
= 18446744073709551616
# 1 << 126
= 85070591730234615865843651857942052864
# 1 << 127
= Overflow
# 1 << 128
= ShiftRange
# 0 << 128
= ShiftRange
# 170141183460469231731687303715884105727
= 170141183460469231731687303715884105727
# 170141183460469231731687303715884105728
= Overflow
# -170141183460469231731687303715884105728
= Overflow
# 170141183460469231731687303715884105727 + 1
= Overflow
# 1 / 0
= DivideByZero
# -170141183460469231731687303715884105727 - 1
= -170141183460469231731687303715884105728
# -(-170141183460469231731687303715884105727 - 1)
= Overflow
# (-170141183460469231731687303715884105727 - 1) / -1
= Overflow
# (-170141183460469231731687303715884105727 - 1) mod -1
= 0
# (-170141183460469231731687303715884105727 - 1) - 1
= Overflow
# 9223372036854775808 * 9223372036854775808
= 85070591730234615865843651857942052864
# 9223372036854775808 * 18446744073709551616
= Overflow
# -9223372036854775808 * 18446744073709551616
= -170141183460469231731687303715884105728
# 7 mod 0
= DivideByZero
# -7 mod -2
= -1
# 7 mod -2
= 1
# -7 / -2
= 3
# 1 << -1
= ShiftRange
# 1 >> -1
= ShiftRange
# -1 << 127
= -170141183460469231731687303715884105728
# 1 >> 127
= 0
# -1 >> 127
= -1
# 1 >> 128
= ShiftRange
# ~0
= -1
# not true
= false
# 12 & 10
= 8
# 12 | 10
= 14
# 12 ^ 10
= 6
# [[1, 2], [3, 4]][1][0]
= 3
# [[1, 2], [3, 4]][2][1 / 0]
= IndexRange
# [[1, 2], [3, 4]][1 / 0][2]
= DivideByZero
# [[1, 2], [3, 4]][0][-1]
= IndexRange
# [1][18446744073709551616]
= IndexRange
# false and 1 / 0 = 1
= false
# true or 1 / 0 = 1
= true
# true and 1 / 0 = 1
= DivideByZero
# false and x
= false
# true and x
= NotConstant
# x
= NotConstant
# 1 / 0 + (1 << 128)
= DivideByZero
# [5, 6][1]
= 6
# [5, 6][2]
= IndexRange
# [5, 6][-1]
= IndexRange
# [5, 1 << 128][1 / 0]
= ShiftRange
# if 1 < 2 then 3 else 1 / 0 end
= 3
# [i * 10 + j : for int(size=32) i in 1 .. 2, for int(size=32) j in 3 .. 4]
= [13, 14, 23, 24]
# [i : for int(size=2) i in 1 .. 3]
= [1, -2, -1]
# [i : for int(size=32) i in 1 .. 2, for int(size=32) i in 3 .. 4]
= [3, 4, 3, 4]
# [1 / 0 : for int(size=32) i in 2 .. 1]
= []
# [1 / 0 : for int(size=32) i in 1 .. 2, for int(size=32) j in 4 .. 3]
= []
# [i : for uint(size=64) i in -1 .. 0]
= [18446744073709551615, 0]
# [5 : for int(size=32) i in 1 .. 1048576][1048575]
= 5
# [5 : for int(size=32) i in 1 .. 1048577]
= TurnLimit";
