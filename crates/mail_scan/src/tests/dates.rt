// Dates against an outside reader.
use crate::date_seconds;
use crate::tests::row_parts;
use std::test::Fail;

// Each row is `TEXT => SECONDS`, the seconds since 1970 as Python's reader of mail dates gives them; tests/mail_dates.py
// prints the rows.
const READ_ALIKE: &str = "\
Mon, 1 Jan 2024 01:00:00 +0100 => 1704067200
1 Jan 2024 00:00:00 GMT => 1704067200
1 Jan 1970 00:00:00 +0000 => 0
1 Jan 1970 00:00:01 +0000 => 1
1 Jan 1970 01:00:00 +0100 => 0
31 Dec 1969 23:30:00 -0030 => 0
Fri, 21 Nov 1997 09:55:06 -0600 => 880127706
Tue, 15 Nov 1994 08:12:31 GMT => 784887151
Thu, 13 Feb 1975 23:32:54 -0330 => 161578974
Wed, 18 Dec 2013 03:17:05 +0530 => 1387316825
31 Dec 1999 23:59:59 +1400 => 946634399
31 Dec 1999 23:59:59 -1200 => 946727999
01 Jan 2000 00:00:00 +0000 => 946684800
28 Feb 1999 23:59:59 -0830 => 920276999
1 Mar 1999 00:00:00 +0000 => 920246400
29 Feb 2000 12:00:00 +0000 => 951825600
1 Mar 2000 00:00:00 +0000 => 951868800
29 Feb 1972 00:00:00 +0000 => 68169600
29 Feb 2004 23:59:59 +0000 => 1078099199
29 Feb 2096 00:00:00 +0000 => 3981312000
28 Feb 2100 23:59:59 +0000 => 4107542399
1 Mar 2100 00:00:00 +0000 => 4107542400
31 Jan 2001 10:20:30 +0000 => 980936430
28 Feb 2001 10:20:30 +0000 => 983355630
31 Mar 2001 10:20:30 +0000 => 986034030
30 Apr 2001 10:20:30 +0000 => 988626030
31 May 2001 10:20:30 +0000 => 991304430
30 Jun 2001 10:20:30 +0000 => 993896430
31 Jul 2001 10:20:30 +0000 => 996574830
31 Aug 2001 10:20:30 +0000 => 999253230
30 Sep 2001 10:20:30 +0000 => 1001845230
31 Oct 2001 10:20:30 +0000 => 1004523630
30 Nov 2001 10:20:30 +0000 => 1007115630
31 Dec 2001 10:20:30 +0000 => 1009794030
9 Sep 2001 01:46:40 +0000 => 1000000000
19 Jan 2038 03:14:07 +0000 => 2147483647
19 Jan 2038 03:14:08 +0000 => 2147483648
7 Feb 2106 06:28:15 GMT => 4294967295
7 Feb 2106 07:28:15 +0100 => 4294967295
7 Feb 2106 05:58:15 -0030 => 4294967295
Sun, 06 Nov 1994 08:49:37 GMT => 784111777
SUN, 06 NOV 1994 08:49:37 gmt => 784111777
sun, 6 nov 1994 08:49:37 ut => 784111777
6 Nov 1994 08:49 GMT => 784111740
06 Nov 1994 08:49 +0000 => 784111740
Sun,  06  Nov  1994  08:49:37  GMT => 784111777
Sun,\t06\tNov\t1994\t08:49:37\tGMT => 784111777
 6 Nov 1994 08:49:37 GMT => 784111777
6 Nov 1994 08:49:37 +0000 (GMT) => 784111777
6 Nov 1994 08:49:37 -0800 (PST) and more => 784140577
Mon, 06 Nov 1994 08:49:37 GMT => 784111777
6 Nov 1994 00:00:00 +0000 => 784080000
6 Nov 1994 23:59:59 +0000 => 784166399
6 Nov 1994 23:59:59 +2359 => 784080059
6 Nov 1994 00:00:00 -2359 => 784166340
6 Nov 1994 12:00:00 +0001 => 784123140
6 Nov 1994 12:00:00 -0001 => 784123260
12 May 2012 12:12:12 +1245 => 1336778832
3 Oct 2021 17:04:59 -0945 => 1633315799
30 Jun 2015 23:59:59 +0000 => 1435708799
";

#[test]
fn reads_as_python(rt: HostRuntime) -> Result<(), Fail> {
    for row in READ_ALIKE.lines() {
        let Some((text, seconds)) = row_parts(row) else {
            return Err("a row without seconds".into());
        };
        assert_eq!(rt; date_seconds(text.as_bytes()), seconds, "{text}");
    }
    Ok(())
}

// Each row is `NAME: TEXT => SECONDS`.
const EDGES: &str = "\
no text:  => none
a second before 1970: 31 Dec 1969 23:59:59 +0000 => none
a second after the last: 7 Feb 2106 06:28:16 GMT => none
29 February 1900: 29 Feb 1900 00:00:00 GMT => none
29 February 2100: 29 Feb 2100 00:00:00 GMT => none
31 April: 31 Apr 2001 00:00:00 GMT => none
day 0: 0 Apr 2001 00:00:00 GMT => none
second 60 counts as 59: 30 Jun 2015 23:59:60 GMT => 1435708799
second 61: 30 Jun 2015 23:59:61 GMT => none
minute 60: 30 Jun 2015 23:60:00 GMT => none
hour 24: 30 Jun 2015 24:00:00 GMT => none
zone +2400: 30 Jun 2015 23:00:00 +2400 => none
zone +0060: 30 Jun 2015 23:00:00 +0060 => none
zone UTC: 1 Jan 2024 00:00:00 UTC => none
zone EST: 1 Jan 2024 00:00:00 EST => none
no zone: 1 Jan 2024 00:00:00 => none
a year of two digits: 1 Jan 24 00:00:00 GMT => none
no white space before the zone: 1 Jan 2024 00:00:00GMT => none
a comma without a day's name: , 1 Jan 2024 00:00:00 GMT => none
no white space behind the comma: Mon,1 Jan 2024 00:00:00 GMT => 1704067200
a word behind the zone: 1 Jan 2024 00:00:00 GMTx => none
three digits of a day: 001 Jan 2024 00:00:00 GMT => none
";

#[test]
fn edges_of_the_grammar(rt: HostRuntime) -> Result<(), Fail> {
    for row in EDGES.lines() {
        let Some((name, rest)) = row.split_once(": ") else {
            return Err("a row without a name".into());
        };
        let Some((text, seconds)) = row_parts(rest) else {
            return Err("a row without seconds".into());
        };
        assert_eq!(rt; date_seconds(text.as_bytes()), seconds, "{name}");
    }
    Ok(())
}
