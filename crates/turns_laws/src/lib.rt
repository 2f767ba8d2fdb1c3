// A job in parts, insertion, turns and finish, is the whole job: definitions and laws, no code.
