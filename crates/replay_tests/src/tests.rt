//! What `top` answers and prints, by tables. Expected bytes are written out from the protocol and the form of scripts.
mod bad_lines;
mod counted;
mod dialogue;
mod ends;
mod limits;
mod pieces;
mod requests;
mod turns;
mod volumes;

use hs_replay::top;
