//! What the program answers by itself.

/// The page of help.
pub const HELP: &str = "\
mmt: lists, measures and receives a stream of MMT over TLV

usage: mmt COMMAND, mmt --help, mmt --version

commands:
  list      reads a stream of TLV packets from standard input, and writes one line for each packet:
            PLACE KIND LENGTH, where PLACE counts bytes from 0, KIND is ip4, ip6, ctx, signal, null or
            other- with two hexadecimal digits, and LENGTH is that of the packet's body; and then, each
            behind ' | ', what IPv6, header-compressed IP, NTP, MMTP, MPU payloads and signalling in it say, or the first
            refusal: refused PLACE WORD NUMBERS
            (no options; at most 1099511627776 bytes are read)
  peak --delay N --window N --bound N [--flow ADDRESS:PORT]
            reads a stream of TLV packets from standard input, and writes one line at its end of what a receiver's
            buffer would have held of it: heard N stored N late N repeat N full N refused N peak N
            --delay   ticks, 1 to 16777215
            --window  ticks, above the delay and at most 16777216
            --bound   bytes of payload, 1 to 1073741824
            --flow    hears this flow alone: the destination's IPv6 address in 32 hexadecimal digits, 0-9 and a-f,
                      and its port, 1 to 65535 and not 123, in decimal digits
            (the options in this order; at most 1099511627776 bytes are read)
  take [--bound N] [--flow ADDRESS:PORT] [--sample-base N] [--timescale N] [--assume WINDOW:DELAY]
            reads a stream of TLV packets from standard input, and writes a record for each unit that a receiver
            hands out; what is refused is noted on standard error, and at the end units N bytes N peak N
            --bound        the greatest buffer that a stream may ask for, in bytes of payload, 1 to 1073741824
                           (67108864 where it is not given)
            --flow         hears this flow alone, as with peak (any flow where it is not given)
            --sample-base  the number of the first sample of an MPU, 0 or 1 (1 where it is not given)
            --timescale    the units in a second of the times of access units, 1 to 4294967295 (90000 where it is
                           not given)
            --assume       for streams that hold no buffer message: the window and the delay in ticks, the delay
                           1 to 16777215, the window above it and at most 16777216 (not assumed where it is not given)
            (the options in any order, each at most once; at most 1099511627776 bytes are read)
  mux PLAN  reads a programme's plan from the file PLAN, and the files that it names, and writes the programme's stream
            of TLV packets to standard output. The plan, the lengths of what is sent, the files and the admission are
            checked in this order, and nothing is written where a check fails
            (no options; standard input is not read)
  pace PLAN --step N
            the same in the slots of a fixed rate: slots stand N ticks apart, 1 to 16777215, and each packet goes in a slot
            of its own, from its timestamp in the plan on and before it is too late; this is tried before admission
            (standard input is not read)
  trial PLAN LIST
            sends what mux PLAN sends into memory, gives a receiver of the programme the packets whose places the file LIST
            names, a decimal number and a line feed for each, in that order, and writes one line of what came out:
            sent N delivered N units N expected N bytes N peak N bound N late N repeat N full N
            (no options; standard input is not read; LIST has at most 16777216 bytes)
  make N    the same of a programme and a list that come from the number N, 0 to 65535
            (no options; standard input is not read)
  expand    reads a stream of TLV packets from standard input, and writes it with a plain IPv6 packet for each
            header-compressed one; packets of other types stay as they are. A compressed packet that is refused, or
            whose payload is too long for a plain one, is left out and noted on standard error
            (no options; at most 1099511627776 bytes are read)
  squeeze --context N --full-every N
            the other way: writes a header-compressed packet for each plain one with IPv6 and UDP; packets that are
            compressed already are left out and noted on standard error
            --context     the context of the first header, 0 to 4095; each new header has the next context, and
                          packets of a header for which none is left stay plain
            --full-every  of the packets of a header the first one and then one in so many carries it, 1 to 65535
            (the options in this order; at most 1099511627776 bytes are read)

statuses, and what is printed on standard error after 'mmt: ':
  0         done
  1         usage: word I           the words are no command from word I on, counted from 0
  2         read fault              a read failed
  3         write fault             a write failed
  4         broken: cut at P        the input ends within the packet at P
            broken: sync at P       the byte at P should be 7F and is not
  5         plan: REASON at PART A B C field F
                                    the plan, one of its files or the list is refused: PART is top, signal, asset, mpu, au,
                                    unit or line, A, B and C count from 0, and F is the member's number from 1 on, or 0
  6         not admitted: RULE N FOUND ALLOWED
                                    what would be sent breaks a rule, A1 to A10, first at number N
  7         out of memory
  8         too long                the input has more bytes than can be read
  9         not paced: FROM TO JOBS SLOTS
                                    JOBS packets have to be sent from tick FROM to tick TO, and only SLOTS slots stand there
";

/// The name and the version.
pub const VERSION: &str = "mmt 0.1.0\n";

/// The text that is asked for where these are the only words.
pub fn answer_to(words: &[String]) -> Option<&'static str> {
    match words {
        [only] if only.as_str() == "--help" => Some(HELP),
        [only] if only.as_str() == "--version" => Some(VERSION),
        _ => None,
    }
}
