//! What the server may send for a line.

use crate::chance::below;

/// Replies of all kinds: of one line or several, accepted by few calls or by none, and lines that begin no reply.
const REPLIES: [&str; 16] = [
    "200 ok\r\n",
    "250 done\r\n",
    "226 done\r\n",
    "257 none\r\n",
    "213 20210230000000\r\n",
    "213 18446744073709551616\r\n",
    "211 none\r\n",
    "211-F\r\nInvalid feature line\r\n211 END\r\n",
    "550 no\r\n",
    "500-a\r\n b\r\n250 c\r\n500 end\r\n",
    "421 bye\r\n",
    "230 in\r\n",
    "200-a\r\n250 x\r\n200 b\n",
    "xx\r\n",
    "20\r\n",
    "\r\n",
];

/// Any reply.
pub fn any_reply(number: u64) -> &'static str {
    REPLIES
        .get(below(number, REPLIES.len()))
        .copied()
        .unwrap_or("")
}

/// The reply that a command's call accepts.
pub fn accepted(verb: &str) -> &'static str {
    match verb {
        "USER" => "331 pw\r\n",
        "PASS" => "230-in\r\n welcome\r\n230 in\r\n",
        "CWD" | "RNTO" | "DELE" | "RMD" => "250 done\r\n",
        "RNFR" => "350 go on\r\n",
        "PWD" => "257 \"/a \"\"b\"\"\" is\r\n",
        "MKD" => "257 made\r\n",
        "SIZE" => "213 512\r\n",
        "MDTM" => "213 20210315120000\r\n",
        "MLST" => "250-Begin\r\n type=dir; a\r\n250 End\r\n",
        "FEAT" => "211-F\r\n UTF8\r\n REST STREAM\r\n211 e\r\n",
        "RETR" | "LIST" | "STOR" => "150 go\r\n",
        _ => "200 ok\r\n",
    }
}
