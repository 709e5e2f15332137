//! The record of a trip.

/// The configuration of the record of L1's trip at 1525, with no sample missing.
pub const CONFIG: &str = "L1,relay,1999\r
8,6A,2D\r
1,IA,A,,mA,1,0,0,-268435455,268435455,1,1,P\r
2,IB,B,,mA,1,0,0,-268435455,268435455,1,1,P\r
3,IC,C,,mA,1,0,0,-268435455,268435455,1,1,P\r
4,UA,A,,mV,10,0,0,-268435455,268435455,1,1,P\r
5,UB,B,,mV,10,0,0,-268435455,268435455,1,1,P\r
6,UC,C,,mV,10,0,0,-268435455,268435455,1,1,P\r
1,GOOD,,,0\r
2,TRIP,,,0\r
50\r
1\r
4800,577\r
01/01/2024,00:00:00.277708\r
01/01/2024,00:00:00.317708\r
ASCII\r
1\r
";
